//! Trees of modules and interfaces as texts.

use crate::show::{Shower, Shown};
use th_tree::{
    ClassDecl, ClassHead, ClauseTree, ExceptionDecl, Formal, Ident, InitHead, InitTree, Interface,
    InterfaceClass, InterfaceItem, MethodTree, Module, ModuleItem, NamedTree, RefTree, Routine,
    RoutineHead, SigTree, TypeDecl, TypeTree,
};

impl<'a> Shower<'a> {
    /// Names behind `open`, with commas between them, and then `close`; nothing where there are none.
    fn idents(&mut self, open: &str, names: &[Ident], close: &str) -> Shown {
        for (k, name) in names.iter().enumerate() {
            self.put(if k == 0 { open } else { ", " })?;
            self.ident(*name)?;
        }
        self.put(if names.is_empty() { "" } else { close })
    }

    fn formals(&mut self, formals: &[Formal]) -> Shown {
        self.put("(")?;
        for (k, formal) in formals.iter().enumerate() {
            self.put(if k == 0 { "" } else { ", " })?;
            self.formal(formal)?;
        }
        self.put(")")
    }

    /// A result behind `returns`, or a yielded type behind `yields`.
    fn gives(&mut self, iterator: bool, of: &Option<TypeTree>) -> Shown {
        let Some(of) = of else {
            return Ok(());
        };
        self.put(if iterator { " yields (" } else { " returns (" })?;
        self.of(of)?;
        self.put(")")
    }

    fn signals(&mut self, signals: &[RefTree]) -> Shown {
        for (k, signal) in signals.iter().enumerate() {
            self.put(if k == 0 { " signals(" } else { ", " })?;
            self.reference(*signal)?;
        }
        self.put(if signals.is_empty() { "" } else { ")" })
    }

    fn sig(&mut self, sig: &SigTree) -> Shown {
        self.word(sig.at, if sig.iterator { "iter " } else { "" })?;
        self.ident(sig.name)?;
        self.formals(&sig.formals)?;
        self.gives(sig.iterator, &sig.gives)?;
        self.signals(&sig.signals)
    }

    fn clause(&mut self, clause: &ClauseTree) -> Shown {
        self.ident(clause.param)?;
        self.put(" has ")?;
        self.ident(clause.method)?;
        self.put("(")?;
        self.types(&clause.formals)?;
        self.put(")")?;
        self.gives(false, &clause.gives)?;
        self.signals(&clause.signals)
    }

    fn clauses(&mut self, clauses: &[ClauseTree]) -> Shown {
        for (k, clause) in clauses.iter().enumerate() {
            self.put(if k == 0 { " where " } else { ", " })?;
            self.clause(clause)?;
        }
        Ok(())
    }

    fn routine_head(&mut self, head: &RoutineHead) -> Shown {
        self.word(head.at, if head.iterator { "iter " } else { "routine " })?;
        self.ident(head.name)?;
        self.idents("[", &head.params, "]")?;
        self.formals(&head.formals)?;
        self.gives(head.iterator, &head.gives)?;
        self.signals(&head.signals)?;
        self.clauses(&head.clauses)
    }

    fn routine(&mut self, routine: &Routine) -> Shown {
        self.routine_head(&routine.head)?;
        self.put(" ")?;
        self.body(&routine.body)?;
        self.put("end ")
    }

    fn inherits(&mut self, class: &Option<NamedTree>) -> Shown {
        let Some(class) = class else {
            return Ok(());
        };
        self.put(" inherits ")?;
        self.named(class)
    }

    fn class_head(&mut self, head: &ClassHead) -> Shown {
        self.word(head.at, "class ")?;
        self.ident(head.name)?;
        self.idents("[", &head.params, "]")?;
        self.put(" for ")?;
        self.named(&head.of)?;
        self.inherits(&head.inherits)?;
        self.clauses(&head.clauses)?;
        self.put("; ")
    }

    fn init_head(&mut self, head: &InitHead) -> Shown {
        self.word(head.at, "init")?;
        self.formals(&head.formals)?;
        self.signals(&head.signals)
    }

    fn interface_class(&mut self, class: &InterfaceClass) -> Shown {
        self.class_head(&class.head)?;
        for sig in &class.hidden {
            self.put("hidden ")?;
            self.sig(sig)?;
            self.put("; ")?;
        }
        self.init_head(&class.init)?;
        self.put("; end ")
    }

    fn init(&mut self, init: &InitTree) -> Shown {
        self.init_head(&init.head)?;
        self.put(" ")?;
        if let Some(call) = &init.super_call {
            self.word(call.at, "super")?;
            self.args(&call.args)?;
            self.put("; ")?;
        }
        for assign in &init.assigns {
            self.ident(assign.field)?;
            self.put(" := ")?;
            self.expr(&assign.value)?;
            self.put("; ")?;
        }
        self.put("end ")
    }

    fn method(&mut self, method: &MethodTree) -> Shown {
        self.word(method.at, if method.hidden { "hidden " } else { "" })?;
        self.sig(&method.sig)?;
        self.put(" ")?;
        self.body(&method.body)?;
        self.put("end ")
    }

    fn class(&mut self, class: &ClassDecl) -> Shown {
        self.class_head(&class.head)?;
        for field in &class.fields {
            self.put("field ")?;
            self.formal(field)?;
            self.put("; ")?;
        }
        self.init(&class.init)?;
        for method in &class.methods {
            self.method(method)?;
        }
        self.put("end ")
    }

    fn supertypes(&mut self, supertypes: &[NamedTree]) -> Shown {
        for (k, supertype) in supertypes.iter().enumerate() {
            self.put(if k == 0 { " < " } else { ", " })?;
            self.named(supertype)?;
        }
        Ok(())
    }

    fn type_item(&mut self, item: &TypeDecl) -> Shown {
        self.word(item.at, "type ")?;
        self.ident(item.name)?;
        self.idents("[", &item.params, "]")?;
        self.supertypes(&item.supertypes)?;
        self.put("; ")?;
        for sig in &item.methods {
            self.sig(sig)?;
            self.put("; ")?;
        }
        self.put("end ")
    }

    fn exception_item(&mut self, item: &ExceptionDecl) -> Shown {
        self.word(item.at, "exception ")?;
        self.ident(item.name)?;
        if let Some(of) = &item.argument {
            self.put("(")?;
            self.of(of)?;
            self.put(")")?;
        }
        self.put("; ")
    }

    /// An interface.
    pub fn interface(&mut self, interface: &Interface) -> Shown {
        self.word(interface.at, "interface ")?;
        self.ident(interface.name)?;
        self.idents(" uses ", &interface.uses, "")?;
        self.put("; ")?;
        for item in &interface.items {
            self.interface_item(item)?;
        }
        self.put("end")
    }

    fn interface_item(&mut self, item: &InterfaceItem) -> Shown {
        match item {
            InterfaceItem::Exception(item) => self.exception_item(item),
            InterfaceItem::Type(item) => self.type_item(item),
            InterfaceItem::Class(class) => self.interface_class(class),
            InterfaceItem::Routine(head) => {
                self.routine_head(head)?;
                self.put("; ")
            }
        }
    }

    /// A module.
    pub fn module(&mut self, module: &Module) -> Shown {
        self.word(module.at, "module ")?;
        self.ident(module.name)?;
        if let Some(implemented) = module.implements {
            self.put(" implements ")?;
            self.ident(implemented)?;
        }
        self.idents(" uses ", &module.uses, "")?;
        self.put("; ")?;
        for item in &module.items {
            match item {
                ModuleItem::Class(class) => self.class(class)?,
                ModuleItem::Routine(routine) => self.routine(routine)?,
            }
        }
        self.put("end")
    }
}

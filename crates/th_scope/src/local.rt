//! The locals in scope.
ghost use Rattle.std.specs.Prelude.{◌≡◌, option_map};
ghost use Rattle.th_rules.specs.Context.{find_binding};
ghost use Rattle.th_scope.specs.View.{binding_of, locals_of};

use th_type::Ty;

/// A local, or a field of a class: the number of its name, its type where its declaration names one, and its place among
/// the locals of the unit or the class's own fields.
#[derive(Drop)]
pub struct Local {
    pub name: u32,
    pub ty: Option<Ty>,
    pub index: u32,
}

/// Locals, the nearest first.
pub enum LocalList {
    NoLocal,
    MoreLocal(Local, Box<LocalList>),
}

impl Drop for LocalList {
    fn drop(mut self) {
        loop {
            match self {
                LocalList::NoLocal => return,
                LocalList::MoreLocal(_, rest) => self = Box::into_inner(rest),
            }
        }
    }
}

impl LocalList {
    /// The nearest local of the name.
    pub fn find(&self, name: u32) -> Option<&Local>
        ensures { option_map (λ l. binding_of l.now) result ≡ find_binding (locals_of self.now) name }
    {
        let mut rest = self;
        while let LocalList::MoreLocal(local, next) = rest {
            if local.name == name {
                return Some(local);
            }
            rest = next;
        }
        None
    }
}

//! What is known where a unit of a module stands. docs/LANGUAGE.md, "Names and scopes", states what names mean there.
ghost use Rattle.std.specs.Prelude.{◌≡◌, List, map};
ghost use Rattle.th_tree.specs.declared.tree.Ident.{Ident};
ghost use Rattle.th_tree.specs.Trees.{ModuleSyn};
ghost use Rattle.th_type.specs.Signatures.{clause_of, sig_of};
ghost use Rattle.th_type.specs.Ways.{WaysEnd};
ghost use Rattle.th_hier.specs.Naming.{different};
ghost use Rattle.th_module_rules.specs.Own.{module_visible};
ghost use Rattle.th_module_rules.specs.Contexts.{unit_context};
ghost use Rattle.th_scope.specs.View.{context_of, items_of, locals_of};

use th_hier::{Hierarchy, Home, Numbers};
use th_scope::{Env, Items, LocalList};
use th_tree::NameTable;
use th_type::{Clause, Sig};

/// What is known in a module: the number of the text; the bytes of the numbered names; the hierarchy of the declared types; the items
/// that can be named; what can be seen outside the module's items.
///
/// No way up is longer than there are declared types, as in each hierarchy of interfaces that keep the rules.
#[derive(Clone, Copy)]
pub struct ModuleEnv<'a> {
    pub text: u32,
    pub names: &'a NameTable,
    pub hierarchy: &'a Hierarchy,
    pub items: &'a Items,
    pub home: &'a Home,
    pub ghost ways_end: { WaysEnd hierarchy.now.types },
}

impl<'a> ModuleEnv<'a> {
    /// What is known where a unit stands: one of an item with these type parameters and clauses, with this signature, and of a class where
    /// it is a method's body; with the locals that are in scope where it begins.
    pub fn unit(
        &self,
        params: &'a Numbers,
        clauses: &'a [Clause],
        sig: &'a Sig,
        class: Option<u32>,
        locals: LocalList,
    ) -> Env<'a>
        ensures context { (m : ModuleSyn) (ps : List Ident) → self.now.home.now ≡ module_visible self.now.names.now m → params.now ≡ different (map (λ p. p.name) ps) → context_of result ≡ unit_context self.now.text self.now.names.now self.now.hierarchy.now (items_of self.now.items.now) m ps (map clause_of clauses.now) (sig_of sig.now) class }
        ensures locals { locals_of result.locals ≡ locals_of locals }
    {
        let home = self.home;
        Env {
            text: self.text,
            names: self.names,
            hierarchy: self.hierarchy,
            items: self.items,
            implements: home.implements,
            uses: &home.uses,
            params,
            clauses,
            sig,
            class,
            locals,
        }
    }
}

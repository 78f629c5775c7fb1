//! What is known where the units of a module stand.
ghost use Rattle.std.specs.Prelude.{◌≡◌, List, map};
ghost use Rattle.th_tree.specs.declared.tree.Ident.{Ident};
ghost use Rattle.th_type.specs.Failures.{place};
ghost use Rattle.th_type.specs.Signatures.{clause_of, sig_of};
ghost use Rattle.th_hier.specs.Naming.{different};
ghost use Rattle.th_module_rules.specs.Modules.{context_in};
ghost use Rattle.th_scope.specs.View.{context_of, locals_of};
ghost use Rattle.th_modules.specs.View.{judged_of};

use crate::judging::Judging;
use th_hier::Numbers;
use th_scope::{Env, LocalList};
use th_type::{Clause, Place, Sig};

impl<'a> Judging<'a> {
    /// What is known where a unit of an item stands: one of an item with these type parameters and clauses, with this signature, and
    /// of a class where it is a method's body; with the unit's formals as the locals in scope.
    pub fn unit(
        &self,
        params: &'a Numbers,
        clauses: &'a [Clause],
        sig: &'a Sig,
        class: Option<u32>,
        formals: LocalList,
    ) -> Env<'a>
        ensures context { (ps : List Ident) → params.now ≡ different (map (λ p. p.name) ps) → context_of result ≡ context_in (judged_of self.now) ps (map clause_of clauses.now) (sig_of sig.now) class }
        ensures locals { locals_of result.locals ≡ locals_of formals }
    {
        self.env.unit(params, clauses, sig, class, formals)
    }
}

/// The byte of the module's text.
pub fn place_at(judging: &Judging<'_>, at: u32) -> Place
    ensures { result ≡ place (judged_of judging.now).text at }
{
    Place {
        text: judging.env.text,
        at,
    }
}

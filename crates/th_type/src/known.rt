//! The rule on inherited methods, judged by tables. docs/LANGUAGE.md, "Conforming", states it.
ghost use Rattle.std.specs.Prelude.{◌≡◌, map, nat_eq, option_map, IfOk};
ghost use Rattle.std.specs.List.{list_any, list_all};
ghost use Rattle.th_type.specs.Types.{ty_of, tys_of, list_of};
ghost use Rattle.th_type.specs.Signatures.{sig_of, subst_sig};
ghost use Rattle.th_type.specs.Declarations.{super_of, meant_of, written_of, decl_of, types_meant, resolved, named_decl};
ghost use Rattle.th_type.specs.Failures.{lowest};
ghost use Rattle.th_type.specs.MethodTables.{method_in, methods_in};
ghost use Rattle.th_type.specs.Tests.{AllRise, gives_param, param_at, is_fixed, gives_fit, conforms_test, fits_all, agrees_sig, agrees_all, written_failures, def_failures, all_failures};
ghost use Rattle.indexmap.specs.IndexSet.{keys, insert_key};
ghost use Rattle.th_type.specs.Judged.{SameNumbers};
ghost use Rattle.th_type.specs.Tables.{defs_of, above_of, tables_up, tables_methods};

use crate::above::{Above, Ancestors};
use crate::conform::{is_same, is_within};
use crate::defs::Defs;
use crate::methods::{Methods, place};
use crate::place::{Failure, Place, demand};
use crate::sig::Sig;
use crate::ty::{Args, TyList};
use crate::typedef::{Meaning, Supertype, TypeDef, Written};
use indexmap::IndexSet;
use std::alloc::{AllocError, Global};

/// The number of the rule on inherited methods.
const METHODS: u32 = 8;

/// For each declared type the supertypes that it reaches, and its methods.
#[derive(Drop)]
pub(crate) struct Tables {
    pub(crate) ancestors: Ancestors,
    pub(crate) methods: Methods,
}

impl Tables {
    /// The methods of a declared type; none where there is no such type.
    pub(crate) fn methods_of(&self, name: u32) -> &[Sig]
        ensures { map sig_of result.now ≡ methods_in (tables_methods self.now) name }
    {
        match self.methods.find(name) {
            Some(sigs) => sigs,
            None => &[],
        }
    }

    /// The method of a declared type; None where it has no such method.
    pub(crate) fn method_of(&self, name: u32, method: u32) -> Option<&Sig>
        requires { AllRise (tables_methods self.now) }
        ensures { option_map (λ s. sig_of s.now) result ≡ method_in (tables_methods self.now) name method }
    {
        let sigs = self.methods_of(name);
        match place(sigs, method) {
            Ok(at) => Some(&sigs[at]),
            Err(_) => None,
        }
    }

    /// Whether the method of a declared type gives a type parameter.
    fn gives_param(&self, name: u32, method: u32) -> bool
        requires { AllRise (tables_methods self.now) }
        ensures { result ≡ gives_param (method_in (tables_methods self.now) name method) }
    {
        match self.method_of(name, method) {
            Some(sig) => sig.gives_param(),
            None => false,
        }
    }

    /// Whether the method gives a type parameter in one of the types.
    fn is_param_above(&self, above: &Above, method: u32) -> bool
        requires { AllRise (tables_methods self.now) }
        ensures { result ≡ list_any (param_at (method_in (tables_methods self.now)) method) (above_of self.now.ancestors.pool above.now) }
    {
        for k in 0..above.len() {
            if self.gives_param(above.name_at(k), method) {
                return true;
            }
        }
        false
    }

    /// Whether the method gives a type parameter in the declared type or in a supertype that it reaches.
    fn is_fixed(&self, name: u32, method: u32) -> bool
        requires { AllRise (tables_methods self.now) }
        ensures { result ≡ is_fixed (tables_up self.now) (method_in (tables_methods self.now)) name method }
    {
        self.gives_param(name, method) || self.is_fixed_above(name, method)
    }

    /// Whether the method gives a type parameter in a supertype that the declared type reaches.
    fn is_fixed_above(&self, name: u32, method: u32) -> bool
        requires { AllRise (tables_methods self.now) }
        ensures { result ≡ list_any (param_at (method_in (tables_methods self.now)) method) (tables_up self.now name) }
    {
        match self.ancestors.find(name) {
            Some(above) => self.is_param_above(above, method),
            None => false,
        }
    }

    /// Whether what the first signature gives fits what the second gives.
    fn gives_fit(&self, a: &Sig, b: &Sig) -> bool
        ensures { result ≡ gives_fit (tables_up self.now) a.now.iterator (option_map ty_of a.now.gives) (option_map ty_of b.now.gives) }
    {
        match (&a.gives, &b.gives) {
            (None, None) => true,
            (Some(x), Some(y)) => {
                if a.iterator {
                    x.is_same(y)
                } else {
                    self.ancestors.is_subtype(x, y)
                }
            }
            _ => false,
        }
    }

    /// Whether the first signature conforms to the second, which is that of its method in the declared type.
    fn conforms(&self, name: u32, a: &Sig, b: &Sig) -> bool
        requires { AllRise (tables_methods self.now) }
        ensures { result ≡ conforms_test (tables_up self.now) (method_in (tables_methods self.now)) name (sig_of a.now) (sig_of b.now) }
    {
        a.iterator == b.iterator
            && a.formals.is_same(&b.formals)
            && is_within(a.signals.as_slice(), b.signals.as_slice())
            && self.gives_fit(a, b)
            && (!self.is_fixed(name, b.method) || is_same(&a.gives, &b.gives))
    }

    /// Whether a signature conforms to that of its method in a supertype, where that has the method.
    fn fits_member(&self, alloc: Global, sig: &Sig, meaning: &Meaning) -> Result<bool, AllocError>
        requires { AllRise (tables_methods self.now) }
        ensures { IfOk result (λ fits. fits ≡ fits_all (tables_up self.now) (method_in (tables_methods self.now)) (sig_of sig.now) (types_meant (meant_of meaning.now))) }
    {
        let Meaning::Whole(name, args) = meaning else {
            return Ok(true);
        };
        match self.method_of(*name, sig.method) {
            Some(inherited) => {
                let inherited = inherited.with_args(alloc, Args::List(args))?;
                Ok(self.conforms(*name, sig, &inherited))
            }
            None => Ok(true),
        }
    }

    /// Whether a signature conforms to those of its method in all declared supertypes.
    fn fits_all(&self, alloc: Global, sig: &Sig, members: &[Supertype]) -> Result<bool, AllocError>
        requires { AllRise (tables_methods self.now) }
        ensures { IfOk result (λ fits. fits ≡ fits_all (tables_up self.now) (method_in (tables_methods self.now)) (sig_of sig.now) (resolved (map super_of members.now))) }
    {
        for member in members {
            if !self.fits_member(alloc, sig, &member.meaning)? {
                return Ok(false);
            }
        }
        Ok(true)
    }

    /// Judges the signatures that are written in a declared type.
    fn judge_written(
        &self,
        alloc: Global,
        def: &TypeDef,
        found: &mut Option<Failure>,
    ) -> Result<(), AllocError>
        requires { AllRise (tables_methods self.now) }
        ensures { IfOk result (λ _. found.new ≡ lowest found.old (written_failures (tables_up self.now) (method_in (tables_methods self.now)) (decl_of def.now) (map written_of def.now.methods.items))) }
    {
        let text = def.place.text;
        for method in &def.methods {
            let fits = self.fits_all(alloc, &method.sig, &def.supertypes)?;
            let at = method.at;
            demand(found, fits, METHODS, Place { text, at });
        }
        Ok(())
    }

    /// Whether an inherited signature is that which the declared type has, or its method is written there.
    fn agrees(&self, name: u32, written: &IndexSet<u32>, sig: &Sig) -> bool
        requires { AllRise (tables_methods self.now) }
        ensures { result ≡ agrees_sig (keys written.now) (method_in (tables_methods self.now) name) (sig_of sig.now) }
    {
        if written.contains(&sig.method) {
            return true;
        }
        match self.method_of(name, sig.method) {
            Some(own) => own.is_same(sig),
            None => false,
        }
    }

    /// Whether this holds of all these signatures, with arguments substituted.
    fn agrees_sigs(
        &self,
        alloc: Global,
        name: u32,
        written: &IndexSet<u32>,
        sigs: &[Sig],
        args: &TyList,
    ) -> Result<bool, AllocError>
        requires { AllRise (tables_methods self.now) }
        ensures { IfOk result (λ agrees. agrees ≡ list_all (agrees_sig (keys written.now) (method_in (tables_methods self.now) name)) (map (subst_sig (list_of (tys_of args.now))) (map sig_of sigs.now))) }
    {
        for sig in sigs {
            let sig = sig.with_args(alloc, Args::List(args))?;
            if !self.agrees(name, written, &sig) {
                return Ok(false);
            }
        }
        Ok(true)
    }

    /// Whether this holds of all methods of a supertype.
    fn agrees_member(
        &self,
        alloc: Global,
        name: u32,
        written: &IndexSet<u32>,
        meaning: &Meaning,
    ) -> Result<bool, AllocError>
        requires { AllRise (tables_methods self.now) }
        ensures { IfOk result (λ agrees. agrees ≡ agrees_all (tables_methods self.now) (keys written.now) (method_in (tables_methods self.now) name) (types_meant (meant_of meaning.now))) }
    {
        let Meaning::Whole(head, args) = meaning else {
            return Ok(true);
        };
        self.agrees_sigs(alloc, name, written, self.methods_of(*head), args)
    }

    /// Whether this holds of all methods of all declared supertypes.
    fn agrees_all(
        &self,
        alloc: Global,
        name: u32,
        written: &IndexSet<u32>,
        members: &[Supertype],
    ) -> Result<bool, AllocError>
        requires { AllRise (tables_methods self.now) }
        ensures { IfOk result (λ agrees. agrees ≡ agrees_all (tables_methods self.now) (keys written.now) (method_in (tables_methods self.now) name) (resolved (map super_of members.now))) }
    {
        for member in members {
            if !self.agrees_member(alloc, name, written, &member.meaning)? {
                return Ok(false);
            }
        }
        Ok(true)
    }

    /// Judges a declared type.
    fn judge_type(
        &self,
        alloc: Global,
        name: u32,
        def: &TypeDef,
        found: &mut Option<Failure>,
    ) -> Result<(), AllocError>
        requires { AllRise (tables_methods self.now) }
        ensures { IfOk result (λ _. found.new ≡ lowest found.old (def_failures (tables_up self.now) (tables_methods self.now) (named_decl name def.now))) }
    {
        self.judge_written(alloc, def, found)?;
        let written = written_methods(alloc, &def.methods)?;
        let agrees = self.agrees_all(alloc, name, &written, &def.supertypes)?;
        demand(found, agrees, METHODS, def.place);
        Ok(())
    }

    /// Judges all declared types.
    pub(crate) fn judge_methods(
        &self,
        alloc: Global,
        defs: &Defs,
        found: &mut Option<Failure>,
    ) -> Result<(), AllocError>
        requires { AllRise (tables_methods self.now) }
        ensures { IfOk result (λ _. found.new ≡ lowest found.old (all_failures (tables_up self.now) (tables_methods self.now) (defs_of defs.now))) }
    {
        for k in 0..defs.len() {
            let (name, def) = defs.at(k);
            self.judge_type(alloc, name, def, found)?;
        }
        Ok(())
    }
}

/// The numbers of the methods that are written in a type.
fn written_methods(alloc: Global, written: &[Written]) -> Result<IndexSet<u32>, AllocError>
    ensures { IfOk result (λ set. SameNumbers (keys set) (map (λ w. w.sig.method) written.now)) }
{
    let mut set = IndexSet::new(alloc);
    for method in written {
        put(&mut set, method.sig.method)?;
    }
    Ok(set)
}

/// Puts a number into a set.
fn put(set: &mut IndexSet<u32>, number: u32) -> Result<(), AllocError>
    ensures { IfOk result (λ _. keys set.new ≡ insert_key nat_eq (keys set.old) number) }
{
    match set.insert_full(number) {
        Ok(_) => Ok(()),
        Err(_) => Err(AllocError),
    }
}

//! What a call comes to, before its turn.
ghost use Rattle.std.specs.Prelude.{◌≡◌, ℕ, ℤ, Bool, List, [], ◌∷◌, Option, Some, None, option_map, IfOk, IfSome, IfNone};
ghost use Rattle.th_meaning.specs.Program.{Program};
ghost use Rattle.th_meaning.specs.World.{World};
ghost use Rattle.th_meaning.specs.Meaning.{Value, Int, Truth, Known, found_from, method_of_object, method_target, where_target, int_primitive, truth_primitive};
ghost use Rattle.th_control.specs.Config.{callee_of};
ghost use Rattle.th_acts.specs.Stands.{Told, Stands};
ghost use Rattle.th_acts.specs.Targets.{target_of, IsTarget};

use crate::runner::Runner;
use std::alloc::AllocError;
use th_classes::init_unit;
use th_control::{Callee, Kind, RunValue};
use th_units::UnitRow;

/// What a call comes to: nothing that is there; a unit that is entered, where it is there; or a known value.
#[derive(Drop)]
pub(crate) enum Target<'a> {
    Nothing,
    Enters(Option<UnitRow<'a>>, Option<usize>),
    Known(RunValue<'a>),
}

impl<'a> Runner<'a> {
    /// What a callee is, with its arguments.
    pub(crate) fn aim(
        &self,
        callee: Callee<'a>,
        args: &[RunValue<'a>],
    ) -> Result<Target<'a>, AllocError>
        ensures { IfOk result (λ target. (e : Told) (left now : Option (List ℕ)) (w : World Value) → Stands e self.now left now w → IsTarget e.program args.now target (target_of e.program (callee_of callee.entry) args.now w)) }
    {
        match callee {
            Callee::Routine(unit) => Ok(Target::Enters(self.tables.units.named(unit), None)),
            Callee::Method(method, value) => Ok(self.method_of_value(method, value)),
            Callee::Object(method, number) => Ok(self.method_of(method, number)),
            Callee::Super(class, method, number) => Ok(self.method_from(class, method, number)),
            Callee::Where(method, value) => Ok(self.where_method(method, value, args)),
            Callee::Init(class, number) => {
                let unit = init_unit(self.alloc, &self.tables.units, class)?;
                Ok(Target::Enters(unit, Some(number)))
            }
        }
    }

    /// A method of a value.
    fn method_of_value(&self, method: &[u8], value: RunValue<'a>) -> Target<'a>
        ensures { (e : Told) (left now : Option (List ℕ)) (w : World Value) (vs : List Value) → Stands e self.now left now w → IsTarget e.program vs result (method_target e.program method.now value.entry vs w) }
    {
        match value.kind() {
            Kind::Int(_) => Target::Nothing,
            Kind::Truth(_) => Target::Nothing,
            Kind::Ref(number) => self.method_of(method, number),
            Kind::Text(_) => Target::Nothing,
        }
    }

    /// A where-method of a value, with its arguments.
    fn where_method(&self, method: &[u8], value: RunValue<'a>, args: &[RunValue<'a>]) -> Target<'a>
        ensures { (e : Told) (left now : Option (List ℕ)) (w : World Value) → Stands e self.now left now w → IsTarget e.program args.now result (where_target e.program method.now value.entry args.now w) }
    {
        match value.kind() {
            Kind::Int(x) => target_of_known(int_method(method, x, args)),
            Kind::Truth(x) => target_of_known(truth_method(method, x, args)),
            Kind::Ref(number) => self.method_of(method, number),
            Kind::Text(_) => Target::Nothing,
        }
    }

    /// A method of an object.
    #[tactic(auto, using(crate::proofs::Aiming::no_class, crate::proofs::Aiming::of_class))]
    fn method_of(&self, method: &[u8], number: usize) -> Target<'a>
        ensures { (e : Told) (left now : Option (List ℕ)) (w : World Value) (vs : List Value) → Stands e self.now left now w → IsTarget e.program vs result (method_of_object e.program method.now number vs w) }
    {
        match self.store.class(number) {
            None => Target::Nothing,
            Some(class) => self.method_from(class, method, number),
        }
    }

    /// The body of a method that the walk finds from a class up, for an object.
    #[tactic(auto, using(crate::proofs::Aiming::no_body, crate::proofs::Aiming::body_without_unit, crate::proofs::Aiming::body_with_unit))]
    fn method_from(&self, class: &[u8], method: &[u8], number: usize) -> Target<'a>
        ensures { (e : Told) (left now : Option (List ℕ)) (w : World Value) (vs : List Value) → Stands e self.now left now w → IsTarget e.program vs result (found_from e.program (Some class.now) method.now number vs) }
    {
        match self.tables.classes.method(class, method) {
            None => Target::Nothing,
            Some(None) => Target::Enters(None, Some(number)),
            Some(Some(unit)) => Target::Enters(self.tables.units.get(unit), Some(number)),
        }
    }
}

/// The target that is a known value, where there is one.
fn target_of_known<'a>(value: Option<RunValue<'a>>) -> Target<'a>
    ensures { (p : Program) (args : List Value) → IsTarget p args result (option_map Known value.entry) }
{
    match value {
        None => Target::Nothing,
        Some(value) => Target::Known(value),
    }
}

/// `equal` and `less` of a number.
fn int_method<'a>(method: &[u8], x: i64, args: &[RunValue<'a>]) -> Option<RunValue<'a>>
    ensures { option_map Known result ≡ int_primitive method.now x args.now }
{
    match only_int(args) {
        None => None,
        Some(y) => {
            if method == b"equal".as_slice() {
                Some(RunValue::truth(x == y))
            } else if method == b"less".as_slice() {
                Some(RunValue::truth(x < y))
            } else {
                None
            }
        }
    }
}

/// `equal` of a truth value.
fn truth_method<'a>(method: &[u8], x: bool, args: &[RunValue<'a>]) -> Option<RunValue<'a>>
    ensures { option_map Known result ≡ truth_primitive method.now x args.now }
{
    match only_truth(args) {
        None => None,
        Some(y) => {
            if method == b"equal".as_slice() {
                Some(RunValue::truth(x == y))
            } else {
                None
            }
        }
    }
}

/// The number that the only argument is; None where there is another argument or none.
fn only_int<'a>(args: &[RunValue<'a>]) -> Option<i64>
    ensures some { IfSome result (λ y. args.now ≡ Int y ∷ []) }
    ensures none { IfNone result ((method : List ℕ) (x : ℤ) → int_primitive method x args.now ≡ None) }
{
    if args.len() != 1 {
        return None;
    }
    match args[0].copied().kind() {
        Kind::Int(y) => Some(y),
        Kind::Truth(_) => None,
        Kind::Ref(_) => None,
        Kind::Text(_) => None,
    }
}

/// The truth value that the only argument is; None where there is another argument or none.
fn only_truth<'a>(args: &[RunValue<'a>]) -> Option<bool>
    ensures some { IfSome result (λ y. args.now ≡ Truth y ∷ []) }
    ensures none { IfNone result ((method : List ℕ) (x : Bool) → truth_primitive method x args.now ≡ None) }
{
    if args.len() != 1 {
        return None;
    }
    match args[0].copied().kind() {
        Kind::Int(_) => None,
        Kind::Truth(y) => Some(y),
        Kind::Ref(_) => None,
        Kind::Text(_) => None,
    }
}

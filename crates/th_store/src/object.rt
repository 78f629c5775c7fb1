//! Objects of a run.
ghost use Rattle.std.specs.Prelude.{◌≡◌, ◌<◌, ◌^◌, ℕ, ℤ, pos, negsuc, List, [], ◌∷◌, ◌++◌, length, find, Bool, Option, Some, None, IfOk, OnOk, OnErr, IfErr, IfSome, IfNone, option_map};
ghost use Rattle.std.specs.List.{position_or_len};
ghost use Rattle.th_meaning.specs.World.{World, Slot, Instance, Array, Did, item_at, with_item, is_slot, on_array, within_bounds, on_instance, if_set};
ghost use Rattle.th_meaning.specs.Meaning.{Value, class_of};
ghost use Rattle.th_store.specs.Found.{found, missed};
ghost use Rattle.th_store.specs.Slots.{with_slot, SlotSets};

use std::alloc::{AllocError, Global};
use std::marker::Model;
use th_control::RunValue;

/// Why there is no value: what is named isn't there; a field isn't bound; an index has no element.
#[derive(Clone, Copy, PartialEq, Eq, Debug, Drop)]
pub enum Miss {
    Stuck,
    Unset,
    Bounds,
}

/// A field that is bound: the class that has it, its place among that class's own, and its value. A contract sees the
/// meaning's slot.
#[derive(Drop)]
pub struct RunSlot<'a> {
    class: &'a [u8],
    field: u32,
    value: RunValue<'a>,
}

impl<'a> Model for RunSlot<'a> {
    ghost use Rattle.th_meaning.specs.World.{Slot};
    ghost use Rattle.th_meaning.specs.Meaning.{Value as TheValue};

    ghost Value = { Slot TheValue };

    ghost view = { λ s. record { class = s.class.now; field = s.field; value = s.value } };
}

/// What an object is.
#[derive(Drop)]
pub enum ObjectKind<'a> {
    Instance(&'a [u8], Vec<RunSlot<'a>>),
    Array(Vec<RunValue<'a>>),
}

/// An object. A contract sees the meaning's object, with one slot for each field that is bound.
#[derive(Drop)]
pub struct RunObject<'a> {
    kind: ObjectKind<'a>,
}

impl<'a> Model for RunObject<'a> {
    ghost use Rattle.th_meaning.specs.World.{Object};
    ghost use Rattle.th_meaning.specs.Meaning.{Value as TheValue};

    ghost Value = { Object TheValue };

    ghost use Rattle.th_store.specs.Kinds.{object_of};

    ghost view = { λ o. object_of o.kind };
}

impl<'a> RunSlot<'a> {
    /// The slot of a field.
    fn new(class: &'a [u8], field: u32, value: RunValue<'a>) -> RunSlot<'a>
        ensures { result ≡ record { class = class.now; field = field; value = value.entry } }
    {
        RunSlot {
            class,
            field,
            value,
        }
    }

    /// Whether it is that of a class's field.
    fn is_of(&self, class: &[u8], field: u32) -> bool
        ensures { result ≡ is_slot class.now field self.now }
    {
        self.class == class && self.field == field
    }

    /// Its value.
    fn value(&self) -> RunValue<'a>
        ensures { result ≡ self.now.value }
    {
        self.value.copied()
    }
}

impl<'a> RunObject<'a> {
    /// An object of a class, with no field bound.
    pub fn instance(alloc: Global, class: &'a [u8]) -> RunObject<'a>
        ensures { result ≡ Instance class.now [] }
    {
        RunObject {
            kind: ObjectKind::Instance(class, Vec::new(alloc)),
        }
    }

    /// An array.
    pub fn array(elements: Vec<RunValue<'a>>) -> RunObject<'a>
        ensures { result ≡ Array elements.entry.items }
    {
        RunObject {
            kind: ObjectKind::Array(elements),
        }
    }

    /// The full name of its class; None where it is an array.
    pub fn class(&self) -> Option<&'a [u8]>
        ensures some { IfSome result (λ class. class_of (Some self.now) ≡ Some class.now) }
        ensures none { IfNone result (class_of (Some self.now) ≡ None) }
    {
        match self.kind {
            ObjectKind::Instance(class, _) => Some(class),
            ObjectKind::Array(_) => None,
        }
    }

    /// How many elements it has; None where it isn't an array.
    pub fn length(&self) -> Result<usize, Miss>
        ensures below { IfOk result (λ length. length < 2 ^ 63) }
        ensures found { (w : World Value) → on_array (Some self.now) w (λ elements. Did (length elements) w) ≡ found result w }
    {
        match &self.kind {
            ObjectKind::Instance(_, _) => Err(Miss::Stuck),
            ObjectKind::Array(elements) => Ok(elements.len()),
        }
    }

    /// An element.
    pub fn element(&self, index: i64) -> Result<RunValue<'a>, Miss>
        ensures { (w : World Value) → on_array (Some self.now) w (λ elements. within_bounds (item_at elements index) w) ≡ found result w }
    {
        match &self.kind {
            ObjectKind::Instance(_, _) => Err(Miss::Stuck),
            ObjectKind::Array(elements) => match place(index) {
                None => Err(Miss::Bounds),
                Some(at) => match elements.get(at) {
                    None => Err(Miss::Bounds),
                    Some(value) => Ok(value.copied()),
                },
            },
        }
    }

    /// Sets an element.
    pub fn set_element(&mut self, index: i64, value: RunValue<'a>) -> Result<(), Miss>
        ensures set { OnOk result ((elements : List Value) × (self.old ≡ Array elements) × (found_item : Value) × (item_at elements index ≡ Some found_item) × (self.new ≡ Array (with_item elements index value.entry))) }
        ensures miss { IfErr result (λ miss. (w : World Value) → on_array (Some self.old) w (λ elements. within_bounds (item_at elements index) w) ≡ missed miss w) }
        ensures same { OnErr result (self.new ≡ self.old) }
    {
        match &mut self.kind {
            ObjectKind::Instance(_, _) => Err(Miss::Stuck),
            ObjectKind::Array(elements) => match place(index) {
                None => Err(Miss::Bounds),
                Some(at) => match elements.get_mut(at) {
                    None => Err(Miss::Bounds),
                    Some(element) => {
                        *element = value;
                        Ok(())
                    }
                },
            },
        }
    }

    /// The value of a field.
    pub fn field(&self, class: &[u8], field: u32) -> Result<RunValue<'a>, Miss>
        ensures { (w : World Value) → on_instance (Some self.now) w (λ _ slots. if_set (option_map (λ s. s.value) (find (is_slot class.now field) slots)) w) ≡ found result w }
    {
        match &self.kind {
            ObjectKind::Array(_) => Err(Miss::Stuck),
            ObjectKind::Instance(_, slots) => match value_in(slots, class, field) {
                None => Err(Miss::Unset),
                Some(value) => Ok(value),
            },
        }
    }
}

impl<'a> RunObject<'a> {
    /// Sets a field; false where it is an array.
    pub fn set_field(
        &mut self,
        class: &'a [u8],
        field: u32,
        value: RunValue<'a>,
    ) -> Result<bool, AllocError>
        ensures set { IfOk result (λ set. SlotSets set self.old (record { class = class.now; field = field; value = value.entry }) self.new) }
        ensures same { OnErr result (self.new ≡ self.old) }
    {
        match &mut self.kind {
            ObjectKind::Array(_) => Ok(false),
            ObjectKind::Instance(_, slots) => {
                set_in(slots, class, field, value)?;
                Ok(true)
            }
        }
    }
}

/// Sets a field among slots.
#[tactic(auto, using(crate::proofs::Slots::set_at, crate::proofs::Slots::set_last))]
fn set_in<'a>(
    slots: &mut Vec<RunSlot<'a>>,
    class: &'a [u8],
    field: u32,
    value: RunValue<'a>,
) -> Result<(), AllocError>
    ensures set { OnOk result (slots.new.items ≡ with_slot (record { class = class.now; field = field; value = value.entry }) slots.old.items) }
    ensures same { OnErr result (slots.new.items ≡ slots.old.items) }
{
    let slot = RunSlot::new(class, field, value);
    let at = place_in(slots, class, field);
    if at < slots.len() {
        slots[at] = slot;
        return Ok(());
    }
    match slots.push(slot) {
        Ok(()) => Ok(()),
        Err(_) => Err(AllocError),
    }
}

/// The place of a field among slots; how many there are where it isn't bound.
fn place_in<'a>(slots: &[RunSlot<'a>], class: &[u8], field: u32) -> usize
    ensures { result ≡ position_or_len (is_slot class.now field) slots.now }
{
    let mut at = 0;
    for slot in slots {
        if slot.is_of(class, field) {
            return at;
        }
        at += 1;
    }
    at
}

/// The place of an index; None where it is negative.
fn place(index: i64) -> Option<usize>
    ensures some { IfSome result (λ at. index ≡ pos at) }
    ensures none { IfNone result ((n : ℕ) × (index ≡ negsuc n)) }
{
    if index < 0 {
        None
    } else {
        Some(index as usize)
    }
}

/// The value of a field among slots.
fn value_in<'a>(slots: &[RunSlot<'a>], class: &[u8], field: u32) -> Option<RunValue<'a>>
    ensures { result ≡ option_map (λ s. s.value) (find (is_slot class.now field) slots.now) }
{
    for slot in slots {
        if slot.is_of(class, field) {
            return Some(slot.value());
        }
    }
    None
}

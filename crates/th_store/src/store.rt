//! The turns, the room and the objects of a run.
ghost use Rattle.std.specs.Prelude.{◌≡◌, ◌<◌, ◌^◌, ℕ, ℤ, false, List, [], Option, Some, None, IfOk, OnOk, IfErr, IfSome, IfNone, option_copied, slice_get, if◌then◌else◌};
ghost use Rattle.th_meaning.specs.World.{World, Did, Stops, OutOfTurns, OutOfRoom, Stuck, spend, reserve, give_back, and_then, element, array_length, set_element, field_value, set_field, add_object};
ghost use Rattle.th_meaning.specs.Meaning.{Value, class_of};
ghost use Rattle.th_store.specs.Found.{found, missed};
ghost use Rattle.th_store.specs.Charges.{charged, with_left};
ghost use Rattle.th_store.specs.Alike.{Alike, AllAlike, SetsTo, FieldSets, Adds};

use crate::object::{Miss, RunObject};
use std::alloc::{AllocError, Global};
use std::marker::Model;
use th_control::RunValue;

/// What a charge lacks.
#[derive(Clone, Copy, PartialEq, Eq, Debug, Drop)]
pub enum Short {
    Turns,
    Room,
}

/// The turns and the room left, and the objects by their numbers. A contract sees the three.
#[derive(Drop)]
pub struct Store<'a> {
    turns: u64,
    room: Option<u64>,
    objects: Vec<RunObject<'a>>,
}

impl<'a> Model for Store<'a> {
    ghost use Rattle.th_store.specs.Stock.{Stock};

    ghost Value = { Stock };

    ghost view = { λ s. record { turns = s.turns; room = s.room; objects = s.objects.items } };
}

impl<'a> Store<'a> {
    /// No object, and so many turns and so much room (None: unlimited).
    pub fn new(alloc: Global, turns: u64, room: Option<u64>) -> Store<'a>
        ensures { result ≡ record { turns = turns; room = room; objects = [] } }
    {
        Store {
            turns,
            room,
            objects: Vec::new(alloc),
        }
    }

    /// Takes so many turns; false where there are fewer.
    #[tactic(auto, using(crate::proofs::Charges::spend_short, crate::proofs::Charges::spend_enough))]
    pub fn spend(&mut self, turns: u64) -> bool
        ensures taken { (w : World Value) → Alike w self.old → spend turns w ≡ (if result then Did tt (with_left self.new w) else Stops OutOfTurns w) }
        ensures kept { result ≡ false → self.new ≡ self.old }
        ensures objects { self.new.objects ≡ self.old.objects }
    {
        match self.turns.checked_sub(turns) {
            None => false,
            Some(left) => {
                self.turns = left;
                true
            }
        }
    }

    /// Takes so many bytes of room; false where there are fewer.
    #[tactic(auto, using(crate::proofs::Charges::reserve_unlimited, crate::proofs::Charges::reserve_short, crate::proofs::Charges::reserve_enough))]
    pub fn reserve(&mut self, bytes: u64) -> bool
        ensures taken { (w : World Value) → Alike w self.old → reserve bytes w ≡ (if result then Did tt (with_left self.new w) else Stops OutOfRoom w) }
        ensures kept { result ≡ false → self.new ≡ self.old }
        ensures objects { self.new.objects ≡ self.old.objects }
    {
        match self.room {
            None => true,
            Some(room) => match room.checked_sub(bytes) {
                None => false,
                Some(left) => {
                    self.room = Some(left);
                    true
                }
            },
        }
    }

    /// Takes turns, and then room; what lacks, where one does.
    pub fn charge(&mut self, turns: u64, bytes: u64) -> Option<Short>
        ensures taken { (w : World Value) → Alike w self.old → and_then (spend turns w) (λ _ w1. reserve bytes w1) ≡ charged result (with_left self.new w) }
        ensures objects { self.new.objects ≡ self.old.objects }
    {
        if !self.spend(turns) {
            return Some(Short::Turns);
        }
        if !self.reserve(bytes) {
            return Some(Short::Room);
        }
        None
    }

    /// Gives back room that was taken. No run has 2^64 bytes of room.
    #[tactic(auto, using(crate::proofs::Charges::gives_unlimited, crate::proofs::Charges::gives_back))]
    pub fn give_back(&mut self, bytes: u64) -> Result<(), AllocError>
        ensures given { OnOk result ((w : World Value) → Alike w self.old → give_back bytes w ≡ with_left self.new w) }
        ensures objects { self.new.objects ≡ self.old.objects }
    {
        match self.room {
            None => Ok(()),
            Some(room) => match room.checked_add(bytes) {
                None => Err(AllocError),
                Some(more) => {
                    self.room = Some(more);
                    Ok(())
                }
            },
        }
    }

    /// Adds an object, and gives its number.
    pub fn add(&mut self, object: RunObject<'a>) -> Result<usize, AllocError>
        ensures { IfOk result (λ number. (w : World Value) → Alike w self.old → Adds object.entry w number self.new) }
    {
        let number = self.objects.len();
        self.objects.push(object)?;
        Ok(number)
    }

    /// The object of a number, where there is one.
    fn object(&self, number: usize) -> Option<&RunObject<'a>>
        ensures { option_copied result ≡ slice_get self.now.objects number }
    {
        self.objects.get(number)
    }

    /// The full name of an object's class.
    pub fn class(&self, number: usize) -> Option<&'a [u8]>
        ensures some { IfSome result (λ class. (w : World Value) → Alike w self.now → class_of (slice_get w.objects number) ≡ Some class.now) }
        ensures none { IfNone result ((w : World Value) → Alike w self.now → class_of (slice_get w.objects number) ≡ None) }
    {
        match self.object(number) {
            None => None,
            Some(object) => object.class(),
        }
    }

    /// How many elements an array has.
    pub fn length(&self, number: usize) -> Result<usize, Miss>
        ensures below { IfOk result (λ length. length < 2 ^ 63) }
        ensures found { (w : World Value) → Alike w self.now → array_length number w ≡ found result w }
    {
        match self.object(number) {
            None => Err(Miss::Stuck),
            Some(object) => object.length(),
        }
    }

    /// An element of an array.
    pub fn element(&self, number: usize, index: i64) -> Result<RunValue<'a>, Miss>
        ensures { (w : World Value) → Alike w self.now → element number index w ≡ found result w }
    {
        match self.object(number) {
            None => Err(Miss::Stuck),
            Some(object) => object.element(index),
        }
    }

    /// The value of an object's field.
    pub fn field(&self, number: usize, class: &[u8], field: u32) -> Result<RunValue<'a>, Miss>
        ensures { (w : World Value) → Alike w self.now → field_value number class.now field w ≡ found result w }
    {
        match self.object(number) {
            None => Err(Miss::Stuck),
            Some(object) => object.field(class, field),
        }
    }

    /// Sets an element of an array.
    pub fn set_element(
        &mut self,
        number: usize,
        index: i64,
        value: RunValue<'a>,
    ) -> Result<(), Miss>
        ensures set { OnOk result ((w : World Value) → Alike w self.old → SetsTo (set_element number index value.entry w) w self.new) }
        ensures miss { IfErr result (λ miss. (w : World Value) → Alike w self.old → set_element number index value.entry w ≡ missed miss w) }
        ensures same { IfErr result (λ miss. self.new ≡ self.old) }
    {
        let count = self.objects.len();
        if number >= count {
            return Err(Miss::Stuck);
        }
        let object = &mut self.objects[number];
        object.set_element(index, value)
    }

    /// Sets a field of an object; false where there is no such object.
    pub fn set_field(
        &mut self,
        number: usize,
        class: &'a [u8],
        field: u32,
        value: RunValue<'a>,
    ) -> Result<bool, AllocError>
        ensures { IfOk result (λ set. (w : World Value) → Alike w self.old → FieldSets set (set_field number class.now field value.entry w) w self.new) }
    {
        let count = self.objects.len();
        if number >= count {
            return Ok(false);
        }
        let object = &mut self.objects[number];
        object.set_field(class, field, value)
    }
}

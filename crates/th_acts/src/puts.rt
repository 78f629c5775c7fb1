//! Acts that put numbers and texts.
ghost use Rattle.std.specs.Prelude.{◌≡◌, ◌++◌, ℕ, List, [], ◌∷◌, take, Option, option_map, IfOk, OnOk, OnErr};
ghost use Rattle.std.specs.Fmt.{signed_decimal};
ghost use Rattle.std.specs.String.{string_bytes};
ghost use Rattle.th_meaning.specs.World.{World, put_each};
ghost use Rattle.th_meaning.specs.Meaning.{Value};
ghost use Rattle.th_control.specs.declared.control.Act.TheVariants.{PutInt, PutText};
ghost use Rattle.th_control.specs.Acts.{doing};
ghost use Rattle.th_acts.specs.Stands.{Told, Stands, Leads};
ghost use Rattle.th_acts.specs.Parts.{Kept};
ghost use Rattle.th_acts.specs.Puts.{PutsEach, PutsPart};

use crate::errors::InterpretError;
use crate::runner::{Next, Over, Runner};
use std::alloc::{AllocError, Global};
use th_control::{How, Now};
use th_world::Sink;

impl<'a> Runner<'a> {
    /// Puts a number in decimal: as many turns as it has bytes, and one more, before the first of them.
    pub(crate) fn put_int<K: Sink>(
        &mut self,
        number: i64,
        output: &mut K,
    ) -> Result<Next<'a>, InterpretError>
        ensures done { IfOk result (λ next. (e : Told) (left : Option (List ℕ)) (w : World Value) → Stands e self.old left (K.put_bytes output.old) w → Leads e self.new left (K.put_bytes output.new) next (doing e.program (PutInt number) self.old.control w)) }
        ensures part { OnErr result ((e : Told) (left : Option (List ℕ)) (w : World Value) → Stands e self.old left (K.put_bytes output.old) w → Kept e left (K.put_bytes output.old) left (K.put_bytes output.new) (doing e.program (PutInt number) self.old.control w)) }
    {
        let text = decimal(self.alloc, number)?;
        let bytes = text.as_bytes();
        if !self.store.spend(bytes.len() as u64 + 1) {
            return Ok(Next::Over(Over::NoTurns));
        }
        put_all(bytes, output)?;
        Ok(Next::Go(Now::How(How::Done)))
    }

    /// Puts a text: one turn, and one more before each byte.
    pub(crate) fn put_text<K: Sink>(
        &mut self,
        bytes: &[u8],
        output: &mut K,
    ) -> Result<Next<'a>, InterpretError>
        ensures done { IfOk result (λ next. (e : Told) (left : Option (List ℕ)) (w : World Value) → Stands e self.old left (K.put_bytes output.old) w → Leads e self.new left (K.put_bytes output.new) next (doing e.program (PutText bytes.entry) self.old.control w)) }
        ensures part { OnErr result ((e : Told) (left : Option (List ℕ)) (w : World Value) → Stands e self.old left (K.put_bytes output.old) w → Kept e left (K.put_bytes output.old) left (K.put_bytes output.new) (doing e.program (PutText bytes.entry) self.old.control w)) }
    {
        if !self.store.spend(1) {
            return Ok(Next::Over(Over::NoTurns));
        }
        if self.put_each(bytes, output)? {
            Ok(Next::Go(Now::How(How::Done)))
        } else {
            Ok(Next::Over(Over::NoTurns))
        }
    }

    /// Puts bytes, each after one turn; false where the turns run out.
    fn put_each<K: Sink>(&mut self, bytes: &[u8], output: &mut K) -> Result<bool, InterpretError>
        ensures done { IfOk result (λ all. (e : Told) (left : Option (List ℕ)) (w : World Value) → Stands e self.old left (K.put_bytes output.old) w → PutsEach e self.new left (K.put_bytes output.new) all (put_each bytes.now w)) }
        ensures part { OnErr result ((e : Told) (left : Option (List ℕ)) (w : World Value) → Stands e self.old left (K.put_bytes output.old) w → PutsPart e left (K.put_bytes output.new) (put_each bytes.now w)) }
        ensures control { self.new.control ≡ self.old.control }
    {
        for byte in bytes {
            if !self.put_next(*byte, output)? {
                return Ok(false);
            }
        }
        Ok(true)
    }

    /// Puts a byte after one turn; false where there is no turn.
    fn put_next<K: Sink>(&mut self, byte: u8, output: &mut K) -> Result<bool, InterpretError>
        ensures done { IfOk result (λ all. (e : Told) (left : Option (List ℕ)) (w : World Value) → Stands e self.old left (K.put_bytes output.old) w → PutsEach e self.new left (K.put_bytes output.new) all (put_each (byte ∷ []) w)) }
        ensures kept { OnErr result (K.put_bytes output.new ≡ K.put_bytes output.old) }
        ensures control { self.new.control ≡ self.old.control }
    {
        if !self.store.spend(1) {
            return Ok(false);
        }
        match output.put(byte) {
            Ok(()) => Ok(true),
            Err(_) => Err(InterpretError::WriteFault),
        }
    }
}

/// A number in decimal.
fn decimal(alloc: Global, number: i64) -> Result<String, AllocError>
    ensures { IfOk result (λ text. string_bytes text ≡ signed_decimal number) }
{
    format!(in alloc; "{number}")
}

/// Puts bytes, one after another.
fn put_all<K: Sink>(bytes: &[u8], output: &mut K) -> Result<(), InterpretError>
    ensures done { OnOk result (K.put_bytes output.new ≡ option_map (λ before. before ++ bytes.now) (K.put_bytes output.old)) }
    ensures part { OnErr result ((n : ℕ) × (K.put_bytes output.new ≡ option_map (λ before. before ++ take n bytes.now) (K.put_bytes output.old))) }
{
    for byte in bytes {
        match output.put(*byte) {
            Ok(()) => {}
            Err(_) => return Err(InterpretError::WriteFault),
        }
    }
    Ok(())
}

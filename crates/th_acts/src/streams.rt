//! Acts that take and put bytes, and texts that are joined.
ghost use Rattle.std.specs.Prelude.{◌≡◌, ◌++◌, ℕ, pos, List, Option, IfOk, OnErr, IfSome, IfNone};
ghost use Rattle.th_meaning.specs.World.{World, put_byte, Fails, bounds};
ghost use Rattle.th_meaning.specs.Meaning.{Value};
ghost use Rattle.th_control.specs.declared.control.Act.TheVariants.{GetByte, PutByte, Join};
ghost use Rattle.th_control.specs.Acts.{doing};
ghost use Rattle.th_acts.specs.Stands.{Told, Stands, Leads};

use crate::errors::InterpretError;
use crate::runner::{Next, Runner};
use crate::values::{lacks, natural, raises};
use std::alloc::{AllocError, Global};
use th_control::{How, Now, RunValue};
use th_world::{Sink, Source};

impl<'a> Runner<'a> {
    /// Takes a byte.
    pub(crate) fn get_byte<S: Source>(&self, input: &mut S) -> Result<Next<'a>, InterpretError>
        ensures done { IfOk result (λ next. (e : Told) (now : Option (List ℕ)) (w : World Value) → Stands e self.now (S.left input.old) now w → Leads e self.now (S.left input.new) now next (doing e.program GetByte self.now.control w)) }
        ensures none { OnErr result (S.left input.new ≡ S.left input.old) }
    {
        match input.next() {
            Ok(Some(byte)) => Ok(Next::Go(Now::Value(RunValue::natural(byte as u32)))),
            Ok(None) => Ok(raises(b"end_of_input")),
            Err(_) => Err(InterpretError::ReadFault),
        }
    }

    /// Puts a byte, or raises `bounds`.
    pub(crate) fn put_byte<K: Sink>(
        &self,
        number: i64,
        output: &mut K,
    ) -> Result<Next<'a>, InterpretError>
        ensures done { IfOk result (λ next. (e : Told) (left : Option (List ℕ)) (w : World Value) → Stands e self.now left (K.put_bytes output.old) w → Leads e self.now left (K.put_bytes output.new) next (doing e.program (PutByte number) self.now.control w)) }
        ensures none { OnErr result (K.put_bytes output.new ≡ K.put_bytes output.old) }
    {
        match byte_of(number) {
            None => Ok(raises(b"bounds")),
            Some(byte) => match output.put(byte) {
                Ok(()) => Ok(Next::Go(Now::How(How::Done))),
                Err(_) => Err(InterpretError::WriteFault),
            },
        }
    }

    /// Joins two texts.
    pub(crate) fn join(&mut self, a: &'a [u8], b: &'a [u8]) -> Result<Next<'a>, InterpretError>
        ensures { IfOk result (λ next. (e : Told) (left now : Option (List ℕ)) (w : World Value) → Stands e self.old left now w → Leads e self.new left now next (doing e.program (Join a.entry b.entry) self.old.control w)) }
    {
        let size = a.len() as u64 + b.len() as u64;
        if size > 2147483647 {
            return Ok(raises(b"bounds"));
        }
        match self.store.charge(size + 1, 8 + 4 * ((size + 3) / 4)) {
            Some(short) => Ok(lacks(short)),
            None => {
                let bytes = joined(self.alloc, a, b)?;
                let text = self.arena.try_alloc_slice_copy(&bytes)?;
                Ok(Next::Go(Now::Value(RunValue::text(text))))
            }
        }
    }
}

/// The bytes of both.
fn joined(alloc: Global, a: &[u8], b: &[u8]) -> Result<Vec<u8>, AllocError>
    ensures { IfOk result (λ bytes. bytes.items ≡ a.now ++ b.now) }
{
    let mut bytes = Vec::new(alloc);
    bytes.extend_from_slice(a)?;
    bytes.extend_from_slice(b)?;
    Ok(bytes)
}

/// The byte that a number is, where it is one.
#[tactic(auto, using(crate::proofs::Bytes::fails_negative, crate::proofs::Bytes::fails_large))]
fn byte_of(number: i64) -> Option<u8>
    ensures some { IfSome result (λ byte. number ≡ pos byte) }
    ensures none { IfNone result ((w : World Value) → put_byte number w ≡ Fails bounds w) }
{
    match natural(number) {
        None => None,
        Some(n) => { if n > 255 { None } else { Some(n as u8) } }
    }
}

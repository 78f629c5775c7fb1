//! Frames: what a unit works on besides the world.
ghost use Rattle.std.specs.Prelude.{◌≡◌, ℕ, List, [], ◌++◌, map, replicate, Option, Some, None, set, slice_get, IfSome, IfNone, IfOk};
ghost use Rattle.th_meaning.specs.Meaning.{Value};
ghost use Rattle.th_control.specs.Values.{bound_at};

use crate::value::RunValue;
use std::alloc::AllocError;
use std::marker::Model;

/// The object whose method or initializer a unit is, where it is one, and its locals. A contract sees the meaning's frame.
#[derive(Drop)]
pub struct Frame<'a> {
    receiver: Option<usize>,
    locals: Vec<Option<RunValue<'a>>>,
}

impl<'a> Model for Frame<'a> {
    ghost use Rattle.th_meaning.specs.Meaning.{Frame as TheFrame};

    ghost Value = { TheFrame };

    ghost view = { λ f. record { receiver = f.receiver; locals = f.locals.items } };
}

impl<'a> Frame<'a> {
    /// A frame of these locals.
    pub fn new(receiver: Option<usize>, locals: Vec<Option<RunValue<'a>>>) -> Frame<'a>
        ensures { result ≡ record { receiver = receiver; locals = locals.entry.items } }
    {
        Frame { receiver, locals }
    }

    /// The number of the object whose method or initializer runs.
    pub fn receiver(&self) -> Option<usize>
        ensures { result ≡ self.now.receiver }
    {
        self.receiver
    }

    /// The value of a local; None where it isn't bound.
    pub fn value(&self, local: u32) -> Option<RunValue<'a>>
        ensures { result ≡ bound_at self.now.locals local }
    {
        match self.locals.get(local as usize) {
            None => None,
            Some(None) => None,
            Some(Some(value)) => Some(value.copied()),
        }
    }

    /// Binds a local.
    pub fn bind(&mut self, local: u32, value: RunValue<'a>)
        ensures { self.new ≡ record { receiver = self.old.receiver; locals = set self.old.locals local (Some value.entry) } }
    {
        if let Some(place) = self.locals.get_mut(local as usize) {
            *place = Some(value);
        }
    }
}

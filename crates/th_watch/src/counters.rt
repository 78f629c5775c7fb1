//! Two watchers: one that counts, and one that keeps the last hits, too.

ghost use Rattle.std.specs.Prelude.{◌≡◌, [], ◌∷◌, slice_get, take};
ghost use Rattle.th_watch.specs.Watch.{aimed, after, tail_after};

use crate::Watcher;
use std::marker::Model;

/// How many hits a `TailWatcher` keeps.
const KEPT: usize = 16;

/// A watcher that counts the hits in its span and keeps the last.
#[derive(Drop)]
pub struct SpanCounter {
    low: u32,
    high: u32,
    count: u64,
    last: Option<u32>,
}

impl Model for SpanCounter {
    ghost use Rattle.th_watch.specs.Watch.{Watch};

    ghost Value = { Watch };

    ghost view = { λ s. record { low = s.low; high = s.high; count = s.count; last = s.last } };
}

impl SpanCounter {
    /// A counter aimed at 0 to 0. It takes no memory.
    pub fn new() -> SpanCounter
        ensures { result ≡ aimed 0 0 }
    {
        SpanCounter {
            low: 0,
            high: 0,
            count: 0,
            last: None,
        }
    }
}

impl Watcher for SpanCounter {
    ghost watch = { λ w. w };

    fn aim(&mut self, lo: u32, hi: u32) {
        self.low = lo;
        self.high = hi;
        self.count = 0;
        self.last = None;
    }

    fn low(&self) -> u32 {
        self.low
    }

    fn high(&self) -> u32 {
        self.high
    }

    fn retire(&mut self, pc: u32) {
        if self.low <= pc && pc < self.high {
            self.count = self.count.saturating_add(1);
            self.last = Some(pc);
        }
    }

    fn count(&self) -> u64 {
        self.count
    }

    fn last(&self) -> Option<u32> {
        self.last
    }
}

/// A watcher that keeps the last sixteen hits since it was aimed, too.
#[derive(Drop)]
pub struct TailWatcher {
    span: SpanCounter,
    hits: [u32; KEPT],
    kept: usize,
}

impl Model for TailWatcher {
    ghost use Rattle.std.specs.Prelude.{take, ◌≤◌};
    ghost use Rattle.th_watch.specs.Watch.{Tail};

    ghost Value = { Tail };

    ghost view = { λ t. record { watch = t.span; tail = take t.kept t.hits } };

    ghost invariant = { λ t. t.kept ≤ 16 };
}

impl TailWatcher {
    /// A watcher aimed at 0 to 0. It takes no memory.
    pub fn new() -> TailWatcher
        ensures watch { result.watch ≡ aimed 0 0 }
        ensures tail { result.tail ≡ [] }
    {
        TailWatcher {
            span: SpanCounter::new(),
            hits: [0; KEPT],
            kept: 0,
        }
    }

    /// The `k`-th of the last hits, from 0, the newest first.
    pub fn tail(&self, k: usize) -> Option<u32>
        ensures { result ≡ slice_get self.now.tail k }
    {
        self.hits[..self.kept].get(k).copied()
    }

    /// Keeps one more hit, and lets the oldest go where there is no room.
    fn keep(&mut self, pc: u32)
        ensures watch { self.new.watch ≡ self.old.watch }
        ensures tail { self.new.tail ≡ take 16 (pc ∷ self.old.tail) }
    {
        self.hits.rotate_right(1);
        self.hits[0] = pc;
        if self.kept < KEPT {
            self.kept += 1;
        }
    }
}

impl Watcher for TailWatcher {
    ghost watch = { λ t. t.watch };

    /// Sets the span, with count 0 and no hit.
    fn aim(&mut self, lo: u32, hi: u32)
        ensures watch { self.new.watch ≡ aimed lo hi }
        ensures tail { self.new.tail ≡ [] }
    {
        self.span.aim(lo, hi);
        self.kept = 0;
    }

    fn low(&self) -> u32 {
        self.span.low()
    }

    fn high(&self) -> u32 {
        self.span.high()
    }

    /// The instruction at `pc` retired.
    fn retire(&mut self, pc: u32)
        ensures watch { self.new.watch ≡ after self.old.watch (pc ∷ []) }
        ensures tail { self.new.tail ≡ tail_after self.old (pc ∷ []) }
    {
        self.span.retire(pc);
        if self.span.low() <= pc && pc < self.span.high() {
            self.keep(pc);
        }
    }

    fn count(&self) -> u64 {
        self.span.count()
    }

    fn last(&self) -> Option<u32> {
        self.span.last()
    }
}

//! Watchers of retired instructions: each counts those whose address is in its
//! span, and keeps the last.
#![tactic(auto)]

ghost use Rattle.std.specs.Prelude.{◌≡◌, [], ◌∷◌, map, remove, slice_get, option_map};
ghost use Rattle.th_watch.specs.Watch.{Watch, aimed, after};

mod counters;

pub use counters::{SpanCounter, TailWatcher};

/// A watcher of retired instructions (docs/MACHINE.md). It means a span of
/// addresses, the count of the hits since it was aimed, and the last hit. An
/// address is a hit where it is in the span: from its low bound up to its high
/// bound, the high one not among them.
pub trait Watcher: Drop {
    /// The span, the count and the last hit.
    ghost watch: { Self → Watch };

    /// Sets the span, with count 0 and no last hit.
    fn aim(&mut self, lo: u32, hi: u32)
        ensures { watch self.new ≡ aimed lo hi };

    /// The span's low bound.
    fn low(&self) -> u32
        ensures { result ≡ (watch self.now).low };

    /// The span's high bound.
    fn high(&self) -> u32
        ensures { result ≡ (watch self.now).high };

    /// The instruction at `pc` retired.
    fn retire(&mut self, pc: u32)
        ensures { watch self.new ≡ after (watch self.old) (pc ∷ []) };

    /// How many hits there were since it was aimed; it stays at the greatest
    /// `u64` once there.
    fn count(&self) -> u64
        ensures { result ≡ (watch self.now).count };

    /// The last hit since it was aimed.
    fn last(&self) -> Option<u32>
        ensures { result ≡ (watch self.now).last };
}

/// The boxed watcher retires `pc`.
fn retire_one(watcher: &mut Box<dyn Watcher>, pc: u32)
    ensures { watch watcher.new ≡ after (watch watcher.old) (pc ∷ []) }
{
    watcher.retire(pc);
}

/// Each member of the list retires `pc`.
pub fn retire_all(list: &mut Vec<Box<dyn Watcher>>, pc: u32)
    ensures { map (λ b. watch b) list.new.items ≡ map (λ w. after w (pc ∷ [])) (map (λ b. watch b) list.old.items) }
{
    for watcher in list.iter_mut() {
        retire_one(watcher, pc);
    }
}

/// The count and the last hit of a boxed watcher.
fn reading(watcher: &Box<dyn Watcher>) -> (u64, Option<u32>)
    ensures { result ≡ ((watch watcher.now).count, (watch watcher.now).last) }
{
    (watcher.count(), watcher.last())
}

/// Takes the watcher at `k` out of the list, drops it and gives its count and
/// its last hit; `None` exactly where `k` is not below the length. The others
/// keep their meaning and their order.
pub fn detach(list: &mut Vec<Box<dyn Watcher>>, k: usize) -> Option<(u64, Option<u32>)>
    ensures found { result ≡ option_map (λ w. (w.count, w.last)) (slice_get (map (λ b. watch b) list.old.items) k) }
    ensures rest { map (λ b. watch b) list.new.items ≡ remove (map (λ b. watch b) list.old.items) k }
{
    if k >= list.len() {
        return None;
    }
    let watcher = list.remove(k);
    Some(reading(&watcher))
}

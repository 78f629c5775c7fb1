//! Whole runs: instructions one after the other, with a source and a sink.

ghost use Rattle.std.specs.Prelude.{◌≡◌, map};
ghost use Rattle.th_elf.specs.Run.{Running};
ghost use Rattle.th_mach.specs.Ran.{seen, outcome_by, Turned, Ran, Stands};

use crate::answer::Outcome;
use crate::hart::Done;
use crate::machine::{Machine, Status};
use th_watch::{Watcher, retire_all};
use th_world::{Sink, Source};

impl Machine {
    /// The outcome of a machine that retires nothing more.
    fn outcome(&self) -> Outcome
        ensures { result ≡ outcome_by self.now.machine.status }
    {
        match self.status {
            Status::Running => Outcome::StepsUsed,
            Status::Stopped(end) => end.outcome(),
            Status::Trapped { cause, pc } => Outcome::Trap { cause, pc },
        }
    }

    /// One turn of a run.
    fn turn<S: Source, K: Sink>(
        &mut self,
        input: &mut S,
        output: &mut K,
        watchers: &mut Vec<Box<dyn Watcher>>,
    ) -> Option<Outcome>
        ensures { Turned
            (seen self.old (K.put_bytes output.old) (S.left input.old)
            (S.Source.faults input.old) (K.Sink.faults output.old)
            (map (λ b. watch b) watchers.old.items))
            result
            (seen self.new (K.put_bytes output.new) (S.left input.new)
            (S.Source.faults input.new) (K.Sink.faults output.new)
            (map (λ b. watch b) watchers.new.items)) }
    {
        match self.status {
            Status::Running => self.live_turn(input, output, watchers),
            Status::Stopped(end) => Some(end.outcome()),
            Status::Trapped { cause, pc } => Some(Outcome::Trap { cause, pc }),
        }
    }

    /// One turn of a run of a machine that runs.
    fn live_turn<S: Source, K: Sink>(
        &mut self,
        input: &mut S,
        output: &mut K,
        watchers: &mut Vec<Box<dyn Watcher>>,
    ) -> Option<Outcome>
        requires { self.old.machine.status ≡ Running }
        ensures { Turned
            (seen self.old (K.put_bytes output.old) (S.left input.old)
            (S.Source.faults input.old) (K.Sink.faults output.old)
            (map (λ b. watch b) watchers.old.items))
            result
            (seen self.new (K.put_bytes output.new) (S.left input.new)
            (S.Source.faults input.new) (K.Sink.faults output.new)
            (map (λ b. watch b) watchers.new.items)) }
    {
        let pc = self.pc();
        match self.proceed() {
            Done::Next => {
                retire_all(watchers, pc);
                None
            }
            Done::Put(byte) => match output.put(byte) {
                Ok(()) => {
                    self.retire_put();
                    retire_all(watchers, pc);
                    None
                }
                Err(_) => Some(Outcome::WriteFault),
            },
            Done::Get => match input.next() {
                Ok(Some(byte)) => {
                    self.retire_take(byte);
                    retire_all(watchers, pc);
                    None
                }
                Ok(None) => {
                    self.retire_end();
                    retire_all(watchers, pc);
                    None
                }
                Err(_) => Some(Outcome::ReadFault),
            },
            Done::Halted(end) => {
                retire_all(watchers, pc);
                Some(end.outcome())
            }
            Done::Trapped(cause) => Some(Outcome::Trap { cause, pc }),
        }
    }

    /// Runs on until the run is over or `steps` instructions are retired, with bytes from `input`
    /// and bytes put to `output`. A machine that ended, raised, stopped for room or trapped gives
    /// the same outcome again and retires nothing; after a fault or `StepsUsed` a further call goes
    /// on. Each watcher retires each instruction that the call retires. It takes no memory.
    /// docs/MACHINE.md says when each outcome comes.
    pub fn run<S: Source, K: Sink>(
        &mut self,
        steps: u64,
        input: &mut S,
        output: &mut K,
        watchers: &mut Vec<Box<dyn Watcher>>,
    ) -> Outcome
        ensures ran { Ran steps
            (seen self.old (K.put_bytes output.old) (S.left input.old)
            (S.Source.faults input.old) (K.Sink.faults output.old)
            (map (λ b. watch b) watchers.old.items))
            result
            (seen self.new (K.put_bytes output.new) (S.left input.new)
            (S.Source.faults input.new) (K.Sink.faults output.new)
            (map (λ b. watch b) watchers.new.items)) }
        ensures stands { Stands self.new.machine.status result }
    {
        for _done in 0..steps {
            if let Some(outcome) = self.turn(input, output, watchers) {
                return outcome;
            }
        }
        self.outcome()
    }
}

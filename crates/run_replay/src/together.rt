//! The runs as a replay drives them.
ghost use Rattle.run_replay.specs.Gathered.{MayShare, seen_in};
ghost use Rattle.run_replay.specs.Pace.{pace_of, spare_of};

use crate::gathered::Gathered;
use crate::halting::halt_all;
use crate::passing::{gone, pass_at};
use crate::stepping::step_at;
use text_script::schedule::drive::{Stepped, TogetherRuns};

impl TogetherRuns for Gathered {
    ghost seen = { λ g. seen_in g };

    ghost shares = { λ g h. MayShare g h };

    ghost pace = { λ g. pace_of g };

    ghost spare = { λ g. spare_of g };

    fn shows_shared(&self) {
        let _limits = self.heap.config();
    }

    fn count(&self) -> usize {
        self.runs.len()
    }

    fn has_ended(&self, at: usize) -> bool {
        self.run(at).has_ended()
    }

    fn commands_left(&self, at: usize) -> usize {
        self.run(at).commands_left()
    }

    fn running(&self, at: usize) -> bool {
        self.run(at).running()
    }

    fn turn(&mut self, at: usize) -> Stepped {
        step_at(&self.heap, self.runs.as_mut_slice(), &mut self.meeting, at)
    }

    fn halt_all(&mut self, complete: bool) {
        let _limits = self.heap.config();
        halt_all(&self.heap, self.runs.as_mut_slice(), &mut self.meeting);
        self.complete = complete;
    }

    fn pass_next(&mut self) {
        let at = gone(self.runs.as_slice());
        pass_at(
            &self.heap,
            self.runs.as_mut_slice(),
            &mut self.meeting,
            at,
            self.complete,
        );
    }
}

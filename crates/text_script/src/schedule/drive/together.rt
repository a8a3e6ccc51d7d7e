//! What a replay needs of the runs of a heap.
ghost use Rattle.std.specs.Prelude.{◌+◌, ◌<◌, ◌≡◌, ◌≤◌, ℕ, List, [], Some, false, length, slice_get, true};
ghost use Rattle.model_core.specs.declared.entry.Entry.{Entry};
ghost use Rattle.text_script.specs.Schedule.Drive.Spending.{most_in_pause};
ghost use Rattle.text_script.specs.Schedule.Drive.Together.{AllHave, AllRuns, Has, IsShared, OneRun, PassedSome, SharesOn, SomeGone, Stands, Turned, all_halted};

/// What a turn came to.
#[derive(Clone, Copy, Debug, PartialEq, Eq)]
pub enum Stepped {
    /// It ran a finaliser.
    Ran,
    /// It made the next command, or the end of the trace.
    Made,
    /// A pause must come first. A complete collection must be made in it exactly where the next command is
    /// a `full_major`.
    Needs { complete: bool },
}

/// The runs of all domains of one heap, which one thread drives. Contracts see them as data, and which histories they
/// may share: only as the heap ends it is known which one they do.
pub trait TogetherRuns {
    /// The runs.
    ghost seen: { Self → AllRuns };

    /// The histories that they may share.
    ghost shares: { Self → List Entry → Type 0 };

    /// How many steps are left of a pause, at most.
    ghost pace: { Self → ℕ };

    /// How often each domain may still arrive, at least.
    ghost spare: { Self → ℕ };

    /// Nothing changes. The numbers are within their limits, and there is a run for each domain. Each history that
    /// they may share is legal, and the replies of a run are those of its domain there.
    fn shows_shared(&self)
        ensures stands { Stands (seen self.now) }
        ensures shared { (h : List Entry) → shares self.now h → IsShared (seen self.now) h };

    /// How many runs there are.
    fn count(&self) -> usize
        ensures { result ≡ length (seen self.now).runs };

    /// How many commands of a run are left: 200,000 at most.
    fn commands_left(&self, at: usize) -> usize
        requires { at < length (seen self.now).runs }
        ensures left { (x : OneRun) → slice_get (seen self.now).runs at ≡ Some x → result ≡ length x.left }
        ensures few { result ≤ 200000 };

    /// Whether the trace of a run has ended.
    fn has_ended(&self, at: usize) -> bool
        requires { at < length (seen self.now).runs }
        ensures { Has (λ x. x.ended) result (seen self.now) at };

    /// Whether the domain of a run runs, and hasn't arrived.
    fn running(&self, at: usize) -> bool
        requires { at < length (seen self.now).runs }
        ensures { Has (λ x. x.runs) result (seen self.now) at };

    /// One turn of a run, while all domains run.
    fn turn(&mut self, at: usize) -> Stepped
        requires inside { at < length (seen self.old).runs }
        requires run { AllHave (λ x. x.runs) true (seen self.old) }
        requires goes_on { Has (λ x. x.ended) false (seen self.old) at }
        ensures turned { Turned (shares self.old) (shares self.new) (seen self.old) (seen self.new) at result }
        ensures spares { spare self.old ≤ spare self.new };

    /// All domains arrive, and domain 0 will lead a pause in which a complete collection is made, or none. No domain
    /// arrives more often in that pause than `most_in_pause` says, and so often each may still arrive.
    fn halt_all(&mut self, complete: bool)
        requires run { AllHave (λ x. x.runs) true (seen self.old) }
        requires room { most_in_pause < spare self.old }
        ensures on { SharesOn (shares self.old) (shares self.new) [] }
        ensures seen { seen self.new ≡ all_halted complete (seen self.old) }
        ensures spends { spare self.old ≤ spare self.new + most_in_pause };

    /// One step in a pause, of some domain that has arrived. Fewer steps are left of the pause then.
    fn pass_next(&mut self)
        requires gone { SomeGone (seen self.old) }
        requires room { 0 < spare self.old }
        ensures passed { PassedSome (shares self.old) (shares self.new) (seen self.old) (seen self.new) }
        ensures nearer { pace self.new < pace self.old }
        ensures spares { spare self.old ≤ spare self.new };
}

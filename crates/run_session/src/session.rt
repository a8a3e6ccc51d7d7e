//! A heap of one domain, and the commands that are handed in to it.
ghost use Rattle.std.specs.Prelude.{◌≡◌, ◌↔◌, ◌+◌, ◌-◌, ◌++◌, ◌∷◌, ◌<◌, ◌≤◌, ℕ, [], length, slice_get, IfOk, None, Err};
ghost use Rattle.model_core.specs.Counts.Counts.{ephemerons_given, labels_given};
ghost use Rattle.run_turns.specs.Tries.{registrations_of};
ghost use Rattle.model_core.specs.Commands.{shown};
ghost use Rattle.model_core.specs.Domains.{IsWithinLimits, domain_at, register as register_value};
ghost use Rattle.model_core.specs.History.{Legal, commands};
ghost use Rattle.heap_rule.specs.Limits.{sizes_in};
ghost use Rattle.heap_rule.specs.Rule.{state_of};
ghost use Rattle.run_session.specs.Sessions.{IsFirstOutside, IsRefusedIn, MayPerform, PerformsIn, alone, fresh, most_arrivals, most_spent, ran_since, replies_of, taken};
ghost use Rattle.run_session.specs.Stopping.{EndsAfter, EndsIn, StopsAfter};

use crate::ended::EndedSession;
use crate::performing::{perform_on, run_in};
use crate::refusing::Refusal;
use gc_mark::Hints;
use heap_rule::{Config, Domain, Ended, Heap, StartFault};
use model_core::command::Command;
use model_core::reply::Reply;
use run_alone::{come_back, end};
use run_turns::singly::{Stats, counts, refuses};
use run_turns::{DomainRun, show};
use std::alloc::Global;
use std::marker::Model;

// How often the domain may arrive in all, and how often it does at most for one command.
const MOST_ARRIVALS: u64 = 1 << 60;

pub(crate) const MOST_SPENT: u64 = 1 << 28;

/// A heap of one domain whose commands are handed in one by one. All memory is taken when it is made. Contracts
/// see its numbers, the history so far, how many labels were given out, how many more ephemerons and finalisers
/// fit, what the domain counts, and the replies of the finalisers that ran before the last command.
#[derive(Drop)]
pub struct Session {
    heap: Heap,
    // It is there but while a pause is gone through.
    run: Option<DomainRun>,
    // Room for the domain as it looks at the barrier, and as the heap ends.
    room: Vec<Domain>,
}

impl Model for Session {
    ghost use Rattle.std.specs.Prelude.{◌≡◌, ◌<◌, [], vec_capacity};
    ghost use Rattle.run_session.specs.Driving.{RestsIn, session_of};
    ghost use Rattle.run_session.specs.Sessions.{SessionView};

    ghost Value = { SessionView };

    ghost view = { λ s. session_of s.heap.config s.run };

    ghost invariant = { λ s. RestsIn s.heap s.run × (s.room.items ≡ []) × (1 < vec_capacity s.room) };
}

impl Session {
    /// A heap of one domain with so many words in its minor area (a multiple of 4096), so many pools, and
    /// room for so many finalisers and for so many ephemerons that aren't garbage. Register 0 holds the shared
    /// block and the others nothing.
    ///
    /// `Config(k)` names the first of the heap's numbers outside its limit, as in [`Config`].
    pub fn make(
        alloc: Global,
        minor_words: u32,
        pools: u32,
        finals: u32,
        ephes: u32,
    ) -> Result<Session, StartFault>
        ensures outside { (k : ℕ) → (result ≡ Err (StartFault.Config k))
            ↔ IsFirstOutside minor_words pools finals ephes k }
        ensures session { IfOk result (λ s. s ≡ fresh (alone minor_words pools finals ephes)) }
    {
        let config = Config {
            domains: 1,
            minor_words,
            pools,
            finals,
            ephes,
        };
        let (heap, mut domains) = Heap::start(alloc, config)?;
        let mut decks = Hints::make(alloc, 1, ephes)?;
        let room = Vec::with_capacity(alloc, 2)?;
        let run = DomainRun::make_open(alloc, domains.remove(0), decks.remove(0))?;
        run.shows_faithful();
        let run = Some(run);
        Ok(Session { heap, run, room })
    }

    /// How many more ephemerons fit.
    pub fn ephes_room(&self) -> usize
        ensures { result ≡ self.now.room }
    {
        run_in(&self.run).domain().ephes_room()
    }

    /// How many more finalisers can be registered. One that was registered takes room until it ran and its reply was
    /// [taken](Session::take_ran).
    pub fn finals_room(&self) -> usize
        ensures { result ≡ self.now.finals }
    {
        let _config = self.heap.config();
        run_in(&self.run).finals_left()
    }

    /// How many labels are left for blocks: 4,294,967,295 less those that were given out.
    pub fn labels_left(&self) -> u32
        ensures { result + self.now.labels ≡ 4294967295 }
    {
        u32::MAX - run_in(&self.run).domain().labels_made()
    }

    /// How often the domain may still arrive: 2^60 times less those that it has. Each command takes 2^28 of them at most, and
    /// mostly none.
    pub fn arrivals_left(&self) -> u64
        ensures { result + self.now.stats.arrivals ≡ most_arrivals }
    {
        let _limits = self.heap.config();
        MOST_ARRIVALS - run_in(&self.run).domain().arrivals()
    }

    /// How many finalisers ran whose replies wait to be taken.
    pub fn ran_len(&self) -> usize
        ensures { result ≡ length self.now.ran }
    {
        run_in(&self.run).ran_len()
    }

    /// The reply at this place of those that wait to be taken, from the oldest at 0 on: `fin` and `last` lines in the order
    /// in which the finalisers ran. None exactly where fewer wait.
    pub fn ran(&self, place: usize) -> Option<Reply>
        ensures { result ≡ slice_get self.now.ran place }
    {
        run_in(&self.run).ran(place)
    }

    /// Takes the oldest reply of those that wait, which makes room for a finaliser more. None exactly where none waits.
    pub fn take_ran(&mut self) -> Option<Reply>
        ensures oldest { result ≡ slice_get self.old.ran 0 }
        ensures others { self.new ≡ taken self.old }
    {
        let Some(run) = &mut self.run else {
            unreachable!()
        };
        let _left = run.finals_left();
        let reply = run.take_ran();
        let _now = run.finals_left();
        run.shows_faithful();
        reply
    }

    /// What the domain counts: labels, words of its minor area, remembered fields, ephemerons, finalisers and arrivals.
    pub fn stats(&self) -> Stats
        ensures stats { result ≡ self.now.stats }
        ensures labels { result.labels ≡ self.now.labels }
        ensures young { result.young_words ≤ self.now.config.minor_words }
        ensures finals { result.finals + result.lasts + result.waiting + length self.now.ran + self.now.finals
            ≡ self.now.config.finals }
    {
        let _config = self.heap.config();
        let _room = run_in(&self.run).finals_left();
        counts(run_in(&self.run))
    }

    /// Why [`perform`](Session::perform) doesn't take a command: the first that is missing of what it asks. None exactly
    /// where it takes it.
    pub fn refuses(&self, command: &Command) -> Option<Refusal>
        ensures none { (result ≡ None) ↔ MayPerform self.now command.now }
        ensures why { IsRefusedIn self.now command.now result }
    {
        let lack = refuses(
            command,
            self.ephes_room(),
            self.finals_room(),
            self.labels_left(),
        );
        if let Some(lack) = lack {
            return Some(Refusal::Unfit(lack));
        }
        if self.arrivals_left() < MOST_SPENT {
            return Some(Refusal::Arrivals);
        }
        None
    }

    /// There is one domain, the numbers are within their limits, the history so far is legal for them, so many labels
    /// were given out as it says, and no more finalisers fit, with those that wait to be taken, than the numbers say.
    pub fn shows_legal(&self)
        ensures alone { self.now.config.domains ≡ 1 }
        ensures limits { IsWithinLimits (sizes_in self.now.config) }
        ensures legal { Legal (sizes_in self.now.config) self.now.front }
        ensures labels { self.now.labels ≡ (domain_at (state_of self.now.config self.now.front) 0).serial }
        ensures finals { self.now.finals + length self.now.ran ≤ self.now.config.finals }
    {
        let _config = self.heap.config();
        let _left = run_in(&self.run).finals_left();
    }

    /// Makes a command, and answers its reply. The command fits the shared heap, its registers are below 16
    /// and its numbers in their ranges, and there are room for an ephemeron that it makes and for a finaliser
    /// that it registers, a label for a block, and arrivals for its pauses. This call waits for nobody, and returns.
    ///
    /// The history grows by entries of the collector and by runs of the finalisers that waited, and then by this
    /// command, and the reply is that of the state before it. The replies of these finalisers wait until each is
    /// [taken](Session::take_ran), behind those that wait. A label is given out exactly where the command allocates and isn't answered `full`. Room
    /// is taken for the ephemeron that it makes, and there is more only where ephemerons were swept. Room is
    /// taken for the finaliser that it registers. A pause that the command
    /// needs is gone through by this thread; one in which a `full_major` is answered ends with the next command.
    #[inline(always)]
    pub fn perform(&mut self, command: Command) -> Reply
        requires may { MayPerform self.old command }
        ensures config { self.new.config ≡ self.old.config }
        ensures labels { self.new.labels ≡ self.old.labels + labels_given command result }
        ensures room { self.old.room ≤ self.new.room + ephemerons_given command result }
        ensures finals { self.old.finals ≤ self.new.finals + registrations_of command }
        ensures arrivals { self.new.stats.arrivals ≤ self.old.stats.arrivals + most_spent }
        ensures performed { PerformsIn self.old self.new command result }
        ensures commands { commands self.new.front 0 ≡ commands self.old.front 0 ++ command ∷ [] }
        ensures replies { replies_of self.old self.new.front ≡ replies_of self.old self.old.front ++
            (ran_since self.old self.new ++ result ∷ []) }
    {
        let _limits = self.heap.config();
        let _left = self.labels_left();
        perform_on(&self.heap, &mut self.run, &mut self.room, command)
    }

    /// The reply that shows what a register holds: `int` with an integer, `blk` with the label of a block, or
    /// `none`. The register is below 16. No entry is made.
    pub fn show(&mut self, r: u8) -> Reply
        requires few { r < 16 }
        ensures same { self.new ≡ self.old }
        ensures reply { result ≡ shown (register_value (state_of self.old.config self.old.front) 0 r) }
    {
        let Some(run) = &mut self.run else {
            unreachable!()
        };
        let reply = show(&self.heap, run, r);
        run.shows_faithful();
        reply
    }

    /// Ends the domain's trace. The finalisers that wait run before that, and what else is registered never runs. Their
    /// replies wait to be taken behind those that wait. Where there is no room for finalisers none runs. This call waits for
    /// nobody, and returns.
    pub fn end(self) -> EndedSession
        ensures { EndsIn self result }
    {
        let Session { heap, run, room } = self;
        let _limits = heap.config();
        let Some(run) = run else { unreachable!() };
        let mut room = room;
        let mut run = come_back(&heap, run, &mut room);
        run.close();
        end(&heap, &mut run);
        EndedSession::new(heap, run, room)
    }

    /// Ends the domain's trace and the heap, as [`end`](Session::end) and [`EndedSession::stop`] do. The history of the ended
    /// heap is the one so far, then entries of the collector and runs of the finalisers that waited, the end of the trace, and
    /// maybe more of the collector's.
    pub fn stop(self) -> Ended
        ensures sizes { result.sizes ≡ sizes_in self.config }
        ensures ends { EndsAfter (sizes_in self.config) self.front result.history }
        ensures stops { self.config.finals ≡ 0 → StopsAfter (sizes_in self.config) self.front result.history }
    {
        self.shows_legal();
        self.end().stop()
    }
}

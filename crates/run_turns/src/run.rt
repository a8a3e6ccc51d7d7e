//! One domain's trace, and how far it has come.
ghost use Rattle.std.specs.Prelude.{◌≡◌, ◌≢◌, ◌↔◌, ◌+◌, ◌<◌, ◌≤◌, true, false, [], drop, length, slice_get, vec_capacity, IfOk, IfSome, None, Some};
ghost use Rattle.model_core.specs.declared.command.Command.TheVariants.{FullMajor};
ghost use Rattle.heap_rule.specs.declared.phase.Kind.TheVariants.{Run};
ghost use Rattle.heap_rule.specs.declared.phase.Stage.TheVariants.{In};
ghost use Rattle.gc_mark.specs.Slices.{IsDeckOf};
ghost use Rattle.run_turns.specs.Runs.{AreLastRan, CanBegin, CanBeginSection, FinalisersFit, HasMade, HasPrinted, HasReplies, IsAlong, IsHandedIn, IsLastReply, IsRun, IsUnanswered, MaySubmit, answer_of, first_place, is_asked, served_since, standing, submitted, unturned};
ghost use Rattle.run_turns.specs.Singly.Driving.{registered};
ghost use Rattle.step_finalisers.specs.Registering.{count_of};

use crate::place::Place;
use crate::supply::Supply;
use crate::turns::is_served;
use gc_mark::Hints;
use heap_rule::{Domain, Kind, Progress};
use heap_words::remembered::BoundedQueue;
use model_core::command::Command;
use model_core::reply::Reply;
use std::alloc::{AllocError, Global};
use std::marker::Model;

/// A domain with its trace: the commands, the place of the next one, and the replies so far.
#[derive(Drop)]
pub struct DomainRun {
    pub(crate) domain: Domain,
    pub(crate) commands: Vec<Command>,
    pub(crate) next: usize,
    pub(crate) replies: Vec<Reply>,
    pub(crate) ended: bool,
    // The kind of the last even phase that the domain knows of, where it has arrived.
    pub(crate) left: Option<Kind>,
    // How often it had arrived when it asked for a pause for the next command.
    pub(crate) asked: Option<u64>,
    // Whether the last pause since then was a complete collection that left so many blocks that they
    // may use up the pools.
    pub(crate) collected: bool,
    // How far a collection of the major heap has come, for domain 0.
    pub(crate) progress: Progress,
    // How many finalisers the domain owes before its next `full_major`: those that waited in its queue
    // after its last one.
    pub(crate) due: usize,
    // Hints of the blocks that are to be scanned.
    pub(crate) hints: Hints,
    // Where the commands come from. Those that are handed in one by one take the place of the one before.
    pub(crate) supply: Supply,
    // How far it has come in its section.
    pub(crate) place: Place,
    // How many finalisers the domain has room for.
    pub(crate) spare: usize,
    // The replies of the finalisers that ran, until they are taken. Where all commands were listed they stand
    // among `replies`.
    pub(crate) ran: BoundedQueue<Reply>,
}

impl Model for DomainRun {
    ghost use Rattle.std.specs.Prelude.{◌≡◌, [], length, vec_capacity};
    ghost use Rattle.run_turns.specs.Runs.{HasReserved, IsRun, RunView, places_in};

    ghost Value = { RunView };

    ghost view = { λ r. record { token = r.domain; commands = r.commands.items; next = r.next; replies = r.replies.items; ended = r.ended; left = r.left; asked = r.asked; collected = r.collected; progress = r.progress; due = r.due; hints = r.hints; supply = r.supply; place = r.place; spare = r.spare; ran = r.ran.items } };

    ghost invariant = { λ r. IsRun (record { token = r.domain; commands = r.commands.items; next = r.next; replies = r.replies.items; ended = r.ended; left = r.left; asked = r.asked; collected = r.collected; progress = r.progress; due = r.due; hints = r.hints; supply = r.supply; place = r.place; spare = r.spare; ran = r.ran.items }) × HasReserved r.supply (length r.commands.items) r.spare (vec_capacity r.commands) (vec_capacity r.replies) (places_in r.ran) };
}

// Where a section stands before its first turn.
fn first_place(spawned: bool) -> Place
    ensures { result ≡ first_place spawned }
{
    if spawned {
        Place::Before
    } else {
        Place::AsEver
    }
}

// Room for so many replies of commands, and for so many of finalisers apart from these.
#[derive(Clone, Copy)]
struct RepliesRoom {
    said: usize,
    ran: usize,
}

// The room for the replies of a run that begins with so many commands, whose domain has room for `spare`
// finalisers.
fn room_for_replies(supply: Supply, count: usize, spare: usize) -> RepliesRoom
    requires few { count ≤ 200000 }
    requires one { IsHandedIn supply → count ≤ 1 }
    ensures answers { count + count ≤ result.said }
    ensures apart { IsHandedIn supply → (2 ≤ result.said) × (spare ≤ result.ran) }
{
    match supply {
        Supply::Listed | Supply::Section => RepliesRoom {
            said: 2 * count,
            ran: 0,
        },
        Supply::Open | Supply::Closed => RepliesRoom {
            said: 2,
            ran: spare,
        },
    }
}

impl DomainRun {
    // A run before its first turn. The room for its replies is taken here: for one of each command and of
    // each finaliser that it registers, or, where commands are handed in, for that of the last command and
    // for those of as many finalisers as the domain has room for.
    fn begin(
        alloc: Global,
        domain: Domain,
        hints: Hints,
        commands: Vec<Command>,
        supply: Supply,
        place: Place,
    ) -> Result<DomainRun, AllocError>
        requires run { IsRun (standing domain commands.items hints supply place) }
        requires none_listed { count_of domain.view.own.finalisers ≡ 0 }
        requires one { IsHandedIn supply → 1 ≤ vec_capacity commands }
        ensures { IfOk result (λ r. r ≡ standing domain commands.items hints supply place) }
    {
        let spare = domain.finals_room();
        let kept = room_for_replies(supply, commands.len(), spare);
        let replies = Vec::with_capacity(alloc, kept.said)?;
        let ran = BoundedQueue::make(alloc, kept.ran)?;
        Ok(DomainRun {
            domain,
            commands,
            next: 0,
            replies,
            ended: false,
            left: None,
            asked: None,
            collected: false,
            progress: Progress::start(),
            due: 0,
            hints,
            supply,
            place,
            spare,
            ran,
        })
    }

    /// A run of a domain from its first command on. The domain runs and no entry of it stands in the
    /// history so far; there are at most 200,000 commands, each of a kind that runs on the shared heap
    /// and with its numbers in their ranges; the domain has room for as many ephemerons as they make
    /// and as many finalisers as they register, and none is registered so far; at most 4,000,000,000
    /// labels were made. The hints are the domain's, among those of all domains. No collection has begun so
    /// far. The room for the replies is reserved here: each command answers once, and so does each
    /// finaliser that it registers. Fails for want of memory alone, and then the domain is given up.
    pub fn make(
        alloc: Global,
        dom: Domain,
        hints: Hints,
        commands: Vec<Command>,
    ) -> Result<DomainRun, AllocError>
        requires begins { CanBegin dom commands.items }
        requires deck { IsDeckOf dom.config dom.view hints }
        ensures { IfOk result (λ r. r ≡ unturned dom commands.items hints Supply.Listed) }
    {
        DomainRun::begin(alloc, dom, hints, commands, Supply::Listed, Place::AsEver)
    }

    /// A run of a domain's section of a script with spawns, from its first command on. The hidden block was
    /// handed to the domain, and behind the entries by which it was made no entry of the domain stands in
    /// what it has seen of the history. `spawned` says whether a spawn begins the section: then the run
    /// waits for that first, and tells its end last. The domain runs, in a heap of at most 8; there are at
    /// most 200,000 commands, each of a kind that runs on the shared heap or one of the four of sections,
    /// with their numbers in their ranges and their registers below 14, and no spawn or join names the
    /// domain's own section. Else the conditions are those of [`make`](DomainRun::make). Fails for want of
    /// memory alone, and then the domain is given up.
    pub fn make_spawning(
        alloc: Global,
        dom: Domain,
        hints: Hints,
        commands: Vec<Command>,
        spawned: bool,
    ) -> Result<DomainRun, AllocError>
        requires begins { CanBeginSection dom commands.items }
        requires deck { IsDeckOf dom.config dom.view hints }
        ensures { IfOk result (λ r. r ≡ standing dom commands.items hints Supply.Section (first_place spawned)) }
    {
        let place = first_place(spawned);
        DomainRun::begin(alloc, dom, hints, commands, Supply::Section, place)
    }

    /// An open run of a domain: its commands are handed in one by one, by [`submit`](DomainRun::submit), and
    /// its trace ends only after [`close`](DomainRun::close). The domain and its hints are as for
    /// [`make`](DomainRun::make), with no command. Of the replies to its commands it keeps the last alone, and
    /// apart from it those of the finalisers that ran, each until it is [taken](DomainRun::take_ran). The room
    /// for all these is reserved here. Fails for want of memory alone, and then the domain is given up.
    pub fn make_open(alloc: Global, dom: Domain, hints: Hints) -> Result<DomainRun, AllocError>
        requires begins { CanBegin dom [] }
        requires deck { IsDeckOf dom.config dom.view hints }
        ensures { IfOk result (λ r. r ≡ unturned dom [] hints Supply.Open) }
    {
        let commands = Vec::with_capacity(alloc, 1)?;
        DomainRun::begin(alloc, dom, hints, commands, Supply::Open, Place::AsEver)
    }

    /// Hands in the next command of an open run whose last command is done. It fits the shared heap, its
    /// registers and numbers are in their ranges, and there are room for an ephemeron that it makes and for
    /// a finaliser that it registers, and a label for a block. The reply to the command before is forgotten.
    pub fn submit(&mut self, command: Command)
        requires may { MaySubmit self.old command }
        ensures { self.new ≡ submitted self.old command }
    {
        self.commands.clear();
        self.commands.push_reserved(command);
        self.replies.clear();
        self.next = 0;
        self.asked = None;
        self.collected = false;
    }

    /// The reply to the command that was handed in last: the last reply to a command of the domain in its part
    /// of the history, whatever finalisers ran before it or since. None exactly where that command isn't done
    /// yet or none was handed in.
    pub fn answer(&self) -> Option<Reply>
        ensures answer { result ≡ answer_of self.now }
        ensures none { (result ≡ None) ↔ IsUnanswered self.now }
        ensures of_history { IfSome result (IsLastReply self.now) }
    {
        match self.supply {
            Supply::Listed | Supply::Section => None,
            Supply::Open | Supply::Closed => self.replies.first().copied(),
        }
    }

    /// How many finalisers ran whose replies wait to be taken. Theirs are the last replies of finalisers of the
    /// domain in its part of the history. Of a run whose commands were all listed none waits: there they stand
    /// among [`replies`](DomainRun::replies).
    pub fn ran_len(&self) -> usize
        ensures len { result ≡ length self.now.ran }
        ensures of_history { IsHandedIn self.now.supply → AreLastRan self.now self.now.ran }
        ensures none { (IsHandedIn self.now.supply → ⊥) → result ≡ 0 }
        ensures few { IsHandedIn self.now.supply → FinalisersFit self.now self.now.ran }
    {
        self.ran.len()
    }

    /// The reply at this place of those that wait to be taken, from the oldest at 0 on. None exactly where fewer
    /// wait.
    pub fn ran(&self, place: usize) -> Option<Reply>
        ensures { result ≡ slice_get self.now.ran place }
    {
        if place < self.ran.len() {
            Some(self.ran.get(place))
        } else {
            None
        }
    }

    /// Takes the oldest reply of those that wait, which makes room for a finaliser more. None exactly where none
    /// waits. It may also be taken once the trace has ended.
    pub fn take_ran(&mut self) -> Option<Reply>
        ensures oldest { result ≡ slice_get self.old.ran 0 }
        ensures others { self.new ≡ record self.old { ran = drop 1 self.old.ran } }
    {
        if self.ran.len() == 0 {
            return None;
        }
        Some(self.ran.remove(0))
    }

    /// How many more finalisers can be registered. Each takes room until it ran and its reply was taken.
    pub fn finals_left(&self) -> usize
        ensures left { result + (registered self.now + length self.now.ran) ≡ self.now.spare }
        ensures spare { self.now.spare ≡ self.now.token.config.finals }
    {
        self.domain.finals_room() - self.ran.len()
    }

    /// No command comes any more. The last one that was handed in is done.
    pub fn close(&mut self)
        requires more { self.old.supply ≡ Supply.Open }
        requires done { self.old.next ≡ length self.old.commands }
        ensures { self.new ≡ record self.old { supply = Supply.Closed } }
    {
        self.supply = Supply::Closed;
    }

    /// Where the commands come from, and whether more may come.
    pub fn supply(&self) -> Supply
        ensures { result ≡ self.now.supply }
    {
        self.supply
    }

    /// How far the run has come in its section. One whose commands are no section of a script with spawns
    /// is as ever.
    pub fn place(&self) -> Place
        ensures place { result ≡ self.now.place }
        ensures as_ever { self.now.supply ≢ Supply.Section → self.now.place ≡ Place.AsEver }
    {
        self.place
    }

    /// The place of the command that is next. Where all commands were listed, the domain's commands in its
    /// part of the history are those before it, each once and in order. Of a section they have made their
    /// steps, each behind those of the one before. Of an open run it is 0 until the command that was handed
    /// in last is done, and then 1.
    pub fn next(&self) -> usize
        ensures next { result ≡ self.now.next }
        ensures made { self.now.supply ≡ Supply.Listed → HasMade self.now }
        ensures section { self.now.supply ≡ Supply.Section → IsAlong self.now }
    {
        self.next
    }

    /// The replies, in order. Where all commands were listed, they are those of the domain's entries in its
    /// part of the history, and of a section those that it prints. Of an open run it is that of the command
    /// handed in last, once it is done.
    pub fn replies(&self) -> &[Reply]
        ensures replies { result.now ≡ self.now.replies }
        ensures of_history { self.now.supply ≡ Supply.Listed → HasReplies self.now }
        ensures printed { self.now.supply ≡ Supply.Section → HasPrinted self.now }
    {
        &self.replies
    }

    /// Whether a command is left to try.
    pub fn has_next(&self) -> bool
        ensures { (result ≡ true) ↔ (self.now.next < length self.now.commands) }
    {
        self.next < self.commands.len()
    }

    /// How many commands are left to make: 200,000 at most.
    pub fn commands_left(&self) -> usize
        ensures left { result ≡ length (drop self.now.next self.now.commands) }
        ensures few { result ≤ 200000 }
    {
        self.commands.len() - self.next
    }

    /// Whether it has asked for a pause for its next command.
    pub fn has_asked(&self) -> bool
        ensures { result ≡ is_asked self.now.asked }
    {
        self.asked.is_some()
    }

    /// Whether a pause has begun since it asked for one for its next command.
    pub fn has_paused(&self) -> bool
        ensures { result ≡ served_since self.now.asked self.now.token.view.own.arrivals }
    {
        is_served(self)
    }

    /// Whether the trace has ended.
    pub fn has_ended(&self) -> bool
        ensures { result ≡ self.now.ended }
    {
        self.ended
    }

    /// Each run is faithful: the domain's commands in its part of the history are those before the next,
    /// each once and in order, the replies are those of its entries there, and a trace that has ended has
    /// made all its commands and then its end. Where commands are handed in, those of earlier commands come
    /// before.
    pub fn shows_faithful(&self)
        ensures { IsRun self.now }
    {
        let _run = &self.domain;
    }

    /// Whether the domain runs, and hasn't arrived.
    pub fn running(&self) -> bool
        ensures value { (result ≡ true) ↔ (self.now.left ≡ None) }
        ensures stage { result ≡ true → self.now.token.view.seen.stage ≡ In Run }
    {
        self.left.is_none()
    }

    /// Whether the next command is a `full_major`.
    pub fn is_at_full_major(&self) -> bool
        ensures { (result ≡ true) ↔ (slice_get self.now.commands self.now.next ≡ Some FullMajor) }
    {
        matches!(self.commands.get(self.next), Some(Command::FullMajor))
    }

    /// The token inside.
    pub fn domain(&self) -> &Domain
        ensures { result.now ≡ self.now.token }
    {
        &self.domain
    }

    /// The token of a run that has ended.
    pub fn into_domain(self) -> Domain
        requires { self.ended ≡ true }
        ensures { result ≡ self.token }
    {
        self.domain
    }

    /// The same, and its hints.
    pub fn into_parts(self) -> (Domain, Hints)
        requires { self.ended ≡ true }
        ensures token { result.0 ≡ self.token }
        ensures hints { result.1 ≡ self.hints }
    {
        (self.domain, self.hints)
    }
}

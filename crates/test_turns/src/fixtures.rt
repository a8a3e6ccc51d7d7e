//! Heaps whose domains have commands, with what the tests need to know of the domains.
ghost use Rattle.std.specs.Prelude.{◌≡◌, ◌≤◌, ◌<◌, All, IfOk, [], true, length};
ghost use Rattle.std.specs.List.{AllByRecursion};
ghost use Rattle.run_turns.specs.Runs.{CanBegin, ephemerons_in, registrations_in};
ghost use Rattle.run_turns.specs.Tries.{FitsHeap, ephemerons_of};
ghost use Rattle.heap_rule.specs.Token.{IsIn};
ghost use Rattle.heap_rule.specs.declared.phase.Kind.TheVariants.{Run};
ghost use Rattle.heap_rule.specs.declared.phase.Stage.TheVariants.{In};
ghost use Rattle.heap_rule.specs.declared.view.Hunt.TheVariants.{Rests};
ghost use Rattle.gc_mark.specs.Slices.{IsDeckOf};
ghost use Rattle.test_turns.specs.Fresh.{IsFresh};

use gc_mark::Hints;
use heap_rule::{Config, Domain, Heap, StartFault};
use model_core::command::Command;
use run_threads::{drive, drive_alone};
use run_turns::{DomainRun, Turned, turn};
use std::alloc::{AllocError, Global};
use std::process::Abort;
use std::sync::Wait;
use std::test::Fail;
use std::thread::Threads;
use text_ends::Gate;

/// Stops the test where the two aren't the same. A test that calls it is proved much faster than one with as many
/// assertions.
pub(crate) fn same<T: Copy + PartialEq>(rt: &impl Abort, got: T, wanted: T) {
    assert!(rt; got == wanted);
}

pub(crate) const ONE_DOMAIN: Config = Config {
    domains: 1,
    minor_words: 4096,
    pools: 20,
    finals: 2,
    ephes: 1,
};

pub(crate) const TWO_DOMAINS: Config = Config {
    domains: 2,
    minor_words: 4096,
    pools: 39,
    finals: 2,
    ephes: 0,
};

/// The commands of a domain, in pieces, each of which is made so often.
pub(crate) type Section = &'static [(u32, &'static [Command])];

/// Puts a block of the major heap before those of a chain, to which registers 1 and 2 lead.
pub(crate) const CHAINED: [Command; 3] = [
    Command::AllocMaj {
        dst: 1,
        tag: 0,
        fields: 1,
    },
    Command::Store {
        block: 1,
        index: 0,
        item: 2,
    },
    Command::Copy { dst: 2, src: 1 },
];

// Appends a piece so often.
fn push_piece(
    commands: &mut Vec<Command>,
    times: u32,
    piece: &[Command],
) -> Result<(), AllocError> {
    for _ in 0..times {
        commands.extend_from_slice(piece)?;
    }
    Ok(())
}

// The commands of a section, one after the other.
fn commands_of(alloc: Global, section: Section) -> Result<Vec<Command>, AllocError> {
    let mut commands = Vec::new(alloc);
    for (times, piece) in section {
        push_piece(&mut commands, *times, piece)?;
    }
    Ok(commands)
}

// A heap, and its domains in order.
fn started(alloc: Global, config: Config) -> Result<(Heap, Vec<Domain>), StartFault>
    ensures { IfOk result (λ r. All (IsFresh r.0) r.1.items) }
{
    let (heap, domains) = Heap::start(alloc, config)?;
    Ok((heap, domains))
}

// Whether it is a command that the tests use, with its numbers in their ranges.
fn fits(command: &Command) -> bool
    ensures fits { result ≡ true → FitsHeap command.now }
    ensures none { result ≡ true → ephemerons_of command.now ≡ 0 }
{
    match *command {
        Command::Alloc { dst, tag, fields } | Command::AllocMaj { dst, tag, fields } => dst < 16
            && tag <= 245
            && 1 <= fields
            && fields <= 126,
        Command::PutInt { dst, value } => dst < 16 && 0 <= value && value <= 1000,
        Command::Copy { dst, src } => dst < 16 && src < 16,
        Command::Forget { dst } => dst < 16,
        Command::Load { dst, src, .. } => dst < 16 && src < 16,
        Command::Store { block, item, .. } => block < 16 && item < 16,
        Command::Finalise { item, dst, .. } => item < 16 && dst < 16,
        Command::FinaliseLast { item, .. } => item < 16,
        Command::Poll | Command::Minor | Command::Major | Command::FullMajor => true,
        _ => false,
    }
}

// Whether a run may have these commands.
fn all_fit(commands: &[Command]) -> bool
    ensures few { result ≡ true → length commands.now ≤ 200000 }
    ensures fit { result ≡ true → All FitsHeap commands.now }
    ensures none { result ≡ true → ephemerons_in commands.now ≡ 0 }
{
    for command in commands {
        if !fits(command) {
            return false;
        }
    }
    commands.len() <= 200_000
}

// How many finalisers these commands register.
fn registrations_of(commands: &[Command]) -> usize
    ensures { result ≡ registrations_in commands.now }
{
    let mut many = 0;
    'commands: for command in commands {
        if matches!(
            *command,
            Command::Finalise { .. } | Command::FinaliseLast { .. }
        ) {
            many += 1;
        }
    }
    many
}

/// Whether the hints are the domain's, among those of all domains.
pub(crate) fn are_of(hints: &Hints, heap: &Heap, domain: &Domain) -> bool
    ensures { result ≡ true → IsDeckOf heap.now.config domain.now.view hints.now }
{
    hints.number() == domain.number() && hints.domains() == heap.config().domains
}

// A run of a domain that has just started.
fn begun(
    alloc: Global,
    heap: &Heap,
    domain: Domain,
    hints: Hints,
    commands: &[Command],
) -> Result<DomainRun, Fail>
    requires here { IsIn domain heap.now }
    requires begins { CanBegin domain [] }
    ensures { IfOk result (λ r. r.token ≡ domain) }
{
    if !are_of(&hints, heap, &domain) {
        return Err(Fail::from("the hints of another domain"));
    }
    if !all_fit(commands) {
        return Err(Fail::from("a command that doesn't fit"));
    }
    if registrations_of(commands) > domain.finals_room() {
        return Err(Fail::from("no room for a finaliser"));
    }
    let commands = Vec::from_slice(alloc, commands)?;
    Ok(DomainRun::make(alloc, domain, hints, commands)?)
}

// A run for each of these domains, with the section at its place.
fn runs_of(
    alloc: Global,
    heap: &Heap,
    domains: Vec<Domain>,
    sections: &[Section],
) -> Result<Vec<DomainRun>, Fail>
    requires { AllByRecursion (IsFresh heap.now) domains.items }
    ensures { IfOk result (λ runs. All (λ r. IsIn r.token heap.now) runs.items) }
{
    let mut runs = Vec::new(alloc);
    let limits = heap.config();
    let mut decks = Hints::make(alloc, limits.domains, limits.ephes)?;
    decks.reverse();
    'domains: for domain in domains {
        let section = sections.get(runs.len()).ok_or("no commands")?;
        let commands = commands_of(alloc, section)?;
        let hints = decks.pop().ok_or("no hints")?;
        runs.push(begun(alloc, heap, domain, hints, &commands)?)?;
    }
    Ok(runs)
}

// So often a domain arrives in no test.
const MOST: u64 = 1_000_000;

// The domain of a run whose trace has ended, as all others have, and its hints. It runs.
fn behind_its_end(heap: &Heap, run: DomainRun) -> Result<(Domain, Hints), Fail>
    requires here { IsIn run.token heap.now }
    ensures here { IfOk result (λ t. IsIn t.0 heap.now) }
    ensures runs { IfOk result (λ t. t.0.view.seen.stage ≡ In Run) }
    ensures at_rest { IfOk result (λ t. t.0.view.seen.hunt ≡ Rests) }
{
    let mut run = run;
    if run.domain().arrivals() >= MOST {
        return Err(Fail::from("too many pauses"));
    }
    match turn(heap, &mut run) {
        Turned::Ended => {
            run.shows_faithful();
            Ok(run.into_parts())
        }
        _ => Err(Fail::from("a trace goes on")),
    }
}

/// A heap with a run for each of its domains.
#[derive(Drop)]
pub(crate) struct Play {
    pub heap: Heap,
    pub runs: Vec<DomainRun>,
    ghost here: { All (λ r. IsIn r.token heap) runs.items },
}

impl Play {
    /// Starts a heap whose domains have these commands, a section for each.
    pub(crate) fn start(alloc: Global, config: Config, sections: &[Section]) -> Result<Play, Fail> {
        let (heap, domains) = started(alloc, config)?;
        let runs = runs_of(alloc, &heap, domains, sections)?;
        Ok(Play { heap, runs })
    }

    // A turn of a domain that may still arrive.
    fn turn(&mut self, domain: usize) -> Option<Turned> {
        if domain >= self.runs.len() || self.runs[domain].domain().arrivals() >= MOST {
            return None;
        }
        Some(turn(&self.heap, &mut self.runs[domain]))
    }

    /// A turn of each of these domains, in order: whether each answers so.
    pub(crate) fn all_answer(&mut self, turns: &[(usize, Turned)]) -> bool {
        let mut right = true;
        for (domain, answer) in turns {
            right = self.turn(*domain) == Some(*answer) && right;
        }
        right
    }

    /// A turn of each domain, one after the other.
    pub(crate) fn take_round(&mut self) {
        for domain in 0..self.runs.len() {
            self.turn(domain);
        }
    }

    /// How many commands domain 0 has made.
    pub(crate) fn commands_made(&self) -> usize {
        match self.runs.first() {
            Some(run) => run.next(),
            None => 0,
        }
    }

    // A turn of each domain. Whether all traces have ended.
    fn has_ended_all(&mut self) -> bool {
        let mut ended = true;
        for domain in 0..self.runs.len() {
            ended = self.turn(domain) == Some(Turned::Ended) && ended;
        }
        ended
    }

    // Turns all domains to the ends of their traces. False where one goes on for too long.
    fn end_all(&mut self) -> bool {
        for _ in 0..1_000_000u32 {
            if self.has_ended_all() {
                return true;
            }
        }
        false
    }

    /// The heap and one of its domains, with its hints, all turned to the ends of their traces. The domain runs.
    pub(crate) fn into_ended(mut self, domain: usize) -> Result<(Heap, Domain, Hints), Fail>
        ensures here { IfOk result (λ r. IsIn r.1 r.0) }
        ensures runs { IfOk result (λ r. r.1.view.seen.stage ≡ In Run) }
        ensures at_rest { IfOk result (λ r. r.1.view.seen.hunt ≡ Rests) }
    {
        if domain >= self.runs.len() || !self.end_all() {
            return Err(Fail::from("no such domain, or a trace goes on"));
        }
        let Play { heap, mut runs } = self;
        if domain >= runs.len() {
            return Err(Fail::from("no such domain"));
        }
        let run = runs.swap_remove(domain);
        let (domain, hints) = behind_its_end(&heap, run)?;
        Ok((heap, domain, hints))
    }

    /// The runs, driven to their ends in threads.
    pub(crate) fn driven<R: Threads + Wait + Sync, G: Gate + Sync>(
        self,
        rt: &R,
        gate: &G,
    ) -> Vec<DomainRun> {
        let Play { heap, runs } = self;
        drive(rt, &heap, runs, gate)
    }

    /// The runs, turned to their ends in this thread.
    pub(crate) fn alone<R: Wait, G: Gate>(self, rt: &R, gate: &G) -> Vec<DomainRun> {
        let Play { heap, runs } = self;
        drive_alone(rt, &heap, runs, gate)
    }
}

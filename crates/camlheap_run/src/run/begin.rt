//! Starts a heap, with a run for each of its domains. All memory of a run is taken here.
ghost use Rattle.std.specs.Prelude.{◌≡◌, ◌≤◌, None, map, IfOk};
ghost use Rattle.heap_rule.specs.Limits.{first_outside, sizes_in};
ghost use Rattle.camlheap_run.specs.Reading.{IsSpelled};
ghost use Rattle.camlheap_run.specs.Running.{AreRunSizes, AreShort, IsBegun, MayBegin, deck_of, most_of, opened_each};
ghost use Rattle.run_turns.specs.Runs.{ephemerons_in, registrations_in};

use gc_mark::Hints;
use heap_rule::{Config, Domain, Heap, StartFault};
use model_core::command::Command;
use model_core::state::Sizes;
use run_turns::DomainRun;
use std::alloc::{AllocError, Global};
use text_script::Script;

/// A heap with a run for each domain, none of which has made a command yet.
#[derive(Drop)]
pub(crate) struct Begun {
    pub(crate) heap: Heap,
    pub(crate) runs: Vec<DomainRun>,
    // Room for the domains when they come back.
    pub(crate) room: Vec<Domain>,
}

// What a domain needs room for, besides blocks.
#[derive(Clone, Copy)]
struct Needs {
    ephemerons: usize,
    registrations: usize,
}

// What the commands of a section need room for, if none is answered `full` or refused.
fn needs_of(section: &[Command]) -> Needs
    ensures ephemerons { result.ephemerons ≡ ephemerons_in section.now }
    ensures registrations { result.registrations ≡ registrations_in section.now }
{
    let mut needs = Needs {
        ephemerons: 0,
        registrations: 0,
    };
    'commands: for command in section {
        match *command {
            Command::Ephe { .. } => needs.ephemerons += 1,
            Command::Finalise { .. } | Command::FinaliseLast { .. } => needs.registrations += 1,
            _ => {}
        }
    }
    needs
}

// The most of each that a section needs room for.
fn most_needs(script: &Script) -> Needs
    ensures ephemerons { result.ephemerons ≡ most_of ephemerons_in script.now.sections }
    ensures registrations { result.registrations ≡ most_of registrations_in script.now.sections }
{
    let mut most = Needs {
        ephemerons: 0,
        registrations: 0,
    };
    'sections: for i in 0..script.sections() {
        let needs = needs_of(script.section(i));
        most.ephemerons = most.ephemerons.max(needs.ephemerons);
        most.registrations = most.registrations.max(needs.registrations);
    }
    most
}

// How large the heap is: each domain has room for as many ephemerons as the section makes that makes
// most, and for as many registrations of finalisers, of both kinds together.
pub(crate) fn config_of(sizes: &Sizes, script: &Script) -> Config
    requires sizes { AreRunSizes sizes.now }
    requires short { AreShort script.now.sections }
    ensures sizes { sizes_in result ≡ sizes.now }
    ensures limits { first_outside result ≡ None }
    ensures ephemerons { result.ephes ≡ most_of ephemerons_in script.now.sections }
    ensures registrations { result.finals ≡ most_of registrations_in script.now.sections }
{
    let most = most_needs(script);
    Config {
        domains: sizes.domains,
        minor_words: sizes.minor_words,
        pools: sizes.pools,
        finals: most.registrations as u32,
        ephes: most.ephemerons as u32,
    }
}

// A run of each domain, in the order of the domains, each with its own of these decks and of these sections.
fn runs_of(
    alloc: Global,
    domains: Vec<Domain>,
    mut decks: Vec<Hints>,
    mut sections: Vec<Vec<Command>>,
) -> Result<Vec<DomainRun>, AllocError>
    requires sections { MayBegin domains.items (map (λ v. v.items) sections.items) }
    requires decks { decks.items ≡ map deck_of domains.items }
    ensures { IfOk result (λ runs. runs.items ≡ opened_each domains.items (map (λ v. v.items) sections.items)) }
{
    let mut runs = Vec::new(alloc);
    'domains: for domain in domains {
        let commands = sections.remove(0);
        let hints = decks.remove(0);
        runs.push(DomainRun::make(alloc, domain, hints, commands)?)?;
    }
    Ok(runs)
}

// Starts the heap of a script. The runs get the sections themselves.
#[inline(never)]
pub(crate) fn begin(alloc: Global, config: Config, script: Script) -> Result<Begun, AllocError>
    requires limits { first_outside config ≡ None }
    requires script { IsSpelled config.domains script }
    requires ephemerons { most_of ephemerons_in script.sections ≤ config.ephes }
    requires registrations { most_of registrations_in script.sections ≤ config.finals }
    ensures { IfOk result (IsBegun config script.sections) }
{
    let (heap, domains) = match Heap::start(alloc, config) {
        Ok(started) => started,
        Err(StartFault::Memory) => return Err(AllocError),
        Err(StartFault::Config(_)) => unreachable!(),
    };
    let room = Vec::with_capacity(alloc, domains.len())?;
    let decks = Hints::make(alloc, config.domains, config.ephes)?;
    let runs = runs_of(alloc, domains, decks, script.into_sections())?;
    Ok(Begun { heap, runs, room })
}

//! Starts a heap for a script with spawns: the hidden block is made, and each domain gets the run of its section. All memory of
//! a run is taken here.
ghost use Rattle.std.specs.Prelude.{◌≡◌, ◌≤◌, ◌∷◌, [], None, map, IfOk};
ghost use Rattle.heap_rule.specs.Limits.{first_outside};
ghost use Rattle.text_script.specs.Spawning.{is_spawned};
ghost use Rattle.camlheap_run.specs.Running.{IsSectioned, MayBeginSections, deck_of, most_of, sectioned_each};
ghost use Rattle.run_turns.specs.Runs.{ephemerons_in, registrations_in};
ghost use Rattle.text_script.specs.Spawned.Reads.{IsRead};

use crate::run::begin::Begun;
use do_spawn::open_hidden;
use gc_mark::Hints;
use heap_rule::{Config, Domain, Heap, StartFault};
use model_core::command::Command;
use run_turns::DomainRun;
use std::alloc::{AllocError, Global};
use text_script::Script;

// Which sections spawns begin.
fn spawned_in(script: &Script) -> [bool; 8]
    ensures { result ≡ map (is_spawned script.now.sections) (0 ∷ 1 ∷ 2 ∷ 3 ∷ 4 ∷ 5 ∷ 6 ∷ 7 ∷ []) }
{
    [
        script.is_spawned(0),
        script.is_spawned(1),
        script.is_spawned(2),
        script.is_spawned(3),
        script.is_spawned(4),
        script.is_spawned(5),
        script.is_spawned(6),
        script.is_spawned(7),
    ]
}

// A run of each domain, in the order of the domains, each with its own of these decks and of these sections.
fn sections_of(
    alloc: Global,
    spawned: [bool; 8],
    domains: Vec<Domain>,
    mut decks: Vec<Hints>,
    mut sections: Vec<Vec<Command>>,
) -> Result<Vec<DomainRun>, AllocError>
    requires sections { MayBeginSections domains.items (map (λ v. v.items) sections.items) }
    requires decks { decks.items ≡ map deck_of domains.items }
    ensures { IfOk result (λ runs. runs.items ≡ sectioned_each spawned domains.items (map (λ v. v.items) sections.items)) }
{
    let mut runs = Vec::new(alloc);
    'domains: for domain in domains {
        let commands = sections.remove(0);
        let hints = decks.remove(0);
        let begins = spawned[domain.number() as usize];
        runs.push(DomainRun::make_spawning(alloc, domain, hints, commands, begins)?)?;
    }
    Ok(runs)
}

// Starts the heap of a script with spawns. The runs get the sections themselves.
#[inline(never)]
pub(crate) fn begin_sections(
    alloc: Global,
    config: Config,
    script: Script,
) -> Result<Begun, AllocError>
    requires limits { first_outside config ≡ None }
    requires script { IsRead config.domains script }
    requires ephemerons { most_of ephemerons_in script.sections ≤ config.ephes }
    requires registrations { most_of registrations_in script.sections ≤ config.finals }
    ensures { IfOk result (IsSectioned config script.sections) }
{
    let (heap, mut domains) = match Heap::start(alloc, config) {
        Ok(started) => started,
        Err(StartFault::Memory) => return Err(AllocError),
        Err(StartFault::Config(_)) => unreachable!(),
    };
    open_hidden(&heap, &mut domains);
    let room = Vec::with_capacity(alloc, domains.len())?;
    let decks = Hints::make(alloc, config.domains, config.ephes)?;
    let spawned = spawned_in(&script);
    let runs = sections_of(alloc, spawned, domains, decks, script.into_sections())?;
    Ok(Begun { heap, runs, room })
}

//! The start of a heap whose domains get their commands handed in.
ghost use Rattle.std.specs.Prelude.{◌≡◌, ◌↔◌, ℕ, Some, Err, IfOk, map};
ghost use Rattle.heap_rule.specs.Limits.{first_outside};
ghost use Rattle.run_turns.specs.Singly.Opening.{MayOpen, deck_of, opened, opened_runs};

use crate::DomainRun;
use gc_mark::Hints;
use heap_rule::{Config, Domain, Heap, StartFault};
use std::alloc::{AllocError, Global};

// A run of each domain that gets its commands handed in.
fn open_each(
    alloc: Global,
    domains: Vec<Domain>,
    mut decks: Vec<Hints>,
) -> Result<Vec<DomainRun>, AllocError>
    requires may { MayOpen domains.items }
    requires decks { decks.items ≡ map deck_of domains.items }
    ensures { IfOk result (λ runs. runs.items ≡ map opened domains.items) }
{
    let mut runs = Vec::new(alloc);
    'domains: for domain in domains {
        let hints = decks.remove(0);
        runs.push(DomainRun::make_open(alloc, domain, hints)?)?;
    }
    Ok(runs)
}

/// A heap of this size, and the open runs of its domains in order. Register 0 of each holds the shared block and the
/// others nothing. All memory is taken here.
///
/// `Config(k)` names the first of the heap's numbers outside its limit.
pub fn start(alloc: Global, config: Config) -> Result<(Heap, Vec<DomainRun>), StartFault>
    ensures outside { (k : ℕ) → (result ≡ Err (StartFault.Config k)) ↔ (first_outside config ≡ Some k) }
    ensures heap { IfOk result (λ r. r.0.config ≡ config) }
    ensures runs { IfOk result (λ r. r.1.items ≡ opened_runs r.0) }
{
    let (heap, domains) = Heap::start(alloc, config)?;
    let _limits = heap.config();
    let decks = Hints::make(alloc, config.domains, config.ephes)?;
    let runs = open_each(alloc, domains, decks)?;
    Ok((heap, runs))
}

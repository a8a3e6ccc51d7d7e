//! Heaps that have just started, with what the tests need to know of their domains.
ghost use Rattle.std.specs.Prelude.{All, IfOk};
ghost use Rattle.test_heap.specs.Calls.Fresh.{IsFresh};

use heap_rule::{Config, Domain, Heap, StartFault};
use std::alloc::Global;
use std::process::Abort;
use std::test::Fail;

/// Stops the test where the two aren't the same. A test that calls it is proved much faster than one with as many
/// assertions.
pub(crate) fn same<T: Copy + PartialEq>(rt: &impl Abort, got: T, wanted: T) {
    assert!(rt; got == wanted);
}

pub(crate) const ONE_DOMAIN: Config = Config {
    domains: 1,
    minor_words: 4096,
    pools: 20,
    finals: 2,
    ephes: 1,
};

const TWO_DOMAINS: Config = Config {
    domains: 2,
    minor_words: 4096,
    pools: 39,
    finals: 2,
    ephes: 0,
};

/// A heap, and its domains in order.
pub(crate) fn started(alloc: Global, config: Config) -> Result<(Heap, Vec<Domain>), StartFault>
    ensures { IfOk result (λ r. All (IsFresh r.0) r.1.items) }
{
    let (heap, domains) = Heap::start(alloc, config)?;
    Ok((heap, domains))
}

/// A heap of one domain, and this domain.
pub(crate) fn one_domain(alloc: Global) -> Result<(Heap, Domain), Fail>
    ensures { IfOk result (λ r. IsFresh r.0 r.1) }
{
    let (heap, mut domains) = started(alloc, ONE_DOMAIN)?;
    let Some(domain) = domains.pop() else {
        return Err(Fail::from("no domain"));
    };
    Ok((heap, domain))
}

/// A heap of two domains, and these domains.
pub(crate) fn two_domains(alloc: Global) -> Result<(Heap, Domain, Domain), Fail>
    ensures first { IfOk result (λ r. IsFresh r.0 r.1) }
    ensures second { IfOk result (λ r. IsFresh r.0 r.2) }
{
    let (heap, mut domains) = started(alloc, TWO_DOMAINS)?;
    let Some(second) = domains.pop() else {
        return Err(Fail::from("no domain"));
    };
    let Some(first) = domains.pop() else {
        return Err(Fail::from("no domain"));
    };
    Ok((heap, first, second))
}

//! The heap before its first entry.
ghost use Rattle.std.specs.Prelude.{◌≡◌, IfOk, replicate, []};
ghost use Rattle.model_core.specs.Domains.{opening, opening_domain as opening_part};

use model_core::graph::{Node, Value};
use model_core::label::Label;
use model_core::sequence::Sequence;
use model_core::state::{DomainState, Mode, Pending, Sizes, State};
use std::alloc::{AllocError, Global};

// The state before the first entry.
pub(crate) fn opening_state(alloc: Global, sizes: Sizes) -> Result<State, AllocError>
    ensures { IfOk result (λ s. s ≡ opening sizes) }
{
    let shared = Label {
        domain: 0,
        serial: 0,
    };
    let fields = Sequence::make(vec![in alloc; Value::Int(0); 16]?);
    let mut graph = Vec::new(alloc);
    graph.push((shared, Node::Plain { tag: 0, fields }))?;
    Ok(State {
        sizes,
        graph: Sequence::make(graph),
        domains: opening_domains(alloc, sizes.domains)?,
        mode: Mode::Open,
        cut: empty_queues(alloc, sizes.domains)?,
        kept: 1,
        taken: Sequence::make(Vec::new(alloc)),
    })
}

// A domain at the start.
fn opening_domain(alloc: Global) -> Result<DomainState, AllocError>
    ensures { IfOk result (λ x. x ≡ opening_part) }
{
    let mut registers = vec![in alloc; Value::Nothing; 16]?;
    registers[0] = Value::Block(Label {
        domain: 0,
        serial: 0,
    });
    Ok(DomainState {
        registers: Sequence::make(registers),
        serial: 0,
        ended: false,
        finals: Sequence::make(Vec::new(alloc)),
        lasts: Sequence::make(Vec::new(alloc)),
        queue: Sequence::make(Vec::new(alloc)),
        low: 0,
        fresh: false,
        due: 0,
    })
}

// All domains at the start.
fn opening_domains(alloc: Global, count: u32) -> Result<Sequence<DomainState>, AllocError>
    ensures { IfOk result (λ xs. xs ≡ replicate count opening_part) }
{
    let mut domains = Vec::new(alloc);
    for _i in 0..count {
        let domain = opening_domain(alloc)?;
        domains.push(domain)?;
    }
    Ok(Sequence::make(domains))
}

// As many empty queues.
fn empty_queues(alloc: Global, count: u32) -> Result<Sequence<Sequence<Pending>>, AllocError>
    ensures { IfOk result (λ xs. xs ≡ replicate count []) }
{
    let mut queues = Vec::new(alloc);
    for _i in 0..count {
        queues.push(Sequence::make(Vec::new(alloc)))?;
    }
    Ok(Sequence::make(queues))
}

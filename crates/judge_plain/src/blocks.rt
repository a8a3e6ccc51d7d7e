//! Blocks: where they stand in the graph, and new ones.
ghost use Rattle.std.specs.Prelude.{◌≡◌, ◌<◌, ◌≤◌, ◌-◌, ◌^◌, length, IfOk, OnOk, OnErr, MatchOption, None, replicate, pos};
ghost use Rattle.model_core.specs.Graph.{node_at, IsPlaceOf};
ghost use Rattle.model_core.specs.Domains.{domain_at};
ghost use Rattle.model_core.specs.Commands.{block_in, IsPlaceInRegister, allocated, new_plain, new_raw};

use crate::registers::{register, set_register};
use model_core::graph::{Node, Value};
use model_core::label::Label;
use model_core::reply::Reply;
use model_core::sequence::Sequence;
use model_core::state::State;
use std::alloc::{AllocError, Global};

// Where a label stands in the graph.
pub(crate) fn place_of(graph: &Sequence<(Label, Node)>, l: Label) -> Option<usize>
    ensures { MatchOption result (node_at graph.now l ≡ None) (IsPlaceOf graph.now l) }
{
    for (i, block) in graph.items.iter().enumerate() {
        if block.0 == l {
            return Some(i);
        }
    }
    None
}

// Where the block in a register stands in the graph.
pub(crate) fn block_place(state: &State, d: usize, r: u8) -> Option<usize>
    requires { d < length state.now.domains }
    ensures { MatchOption result (block_in state.now d r ≡ None) (IsPlaceInRegister state.now d r) }
{
    match register(state, d, r) {
        Value::Block(l) => place_of(&state.graph, l),
        _ => None,
    }
}

// A new plain block: each field is 0.
pub(crate) fn plain(alloc: Global, tag: u8, fields: u16) -> Result<Node, AllocError>
    ensures { IfOk result (λ n. n ≡ new_plain tag fields) }
{
    let fields = zeros(alloc, fields)?;
    Ok(Node::Plain { tag, fields })
}

// A new raw block: each field is 0.
pub(crate) fn raw(alloc: Global, tag: u8, fields: u16) -> Result<Node, AllocError>
    ensures { IfOk result (λ n. n ≡ new_raw tag fields) }
{
    let fields = zeros(alloc, fields)?;
    Ok(Node::Raw { tag, fields })
}

// As many fields, each 0.
fn zeros(alloc: Global, count: u16) -> Result<Sequence<Value>, AllocError>
    ensures { IfOk result (λ fields. fields ≡ replicate count (Value.Int (pos 0))) }
{
    let fields = vec![in alloc; Value::Int(0); usize::from(count)]?;
    Ok(Sequence::make(fields))
}

// A new ephemeron: its keys and its data are empty.
pub(crate) fn ephemeron(alloc: Global, keys: u16) -> Result<Node, AllocError>
    ensures { IfOk result (λ n. n ≡ Node.Ephe (replicate keys None) Value.Nothing) }
{
    let keys = vec![in alloc; None; usize::from(keys)]?;
    Ok(Node::Ephe {
        keys: Sequence::make(keys),
        datum: Value::Nothing,
    })
}

// A new block with the domain's next label, which `dst` then holds.
pub(crate) fn add_block(
    state: &mut State,
    d: usize,
    dst: u8,
    node: Node,
) -> Result<Reply, AllocError>
    requires domain { d < length state.old.domains }
    requires number { d < 8 }
    requires serial { (domain_at state.old d).serial < 2 ^ 32 - 1 }
    requires kept { state.old.kept ≤ length state.old.graph }
    ensures reply { IfOk result (λ r. r ≡ (allocated state.old d dst node).reply) }
    ensures state { OnOk result (state.new ≡ (allocated state.old d dst node).state) }
    ensures err { OnErr result (state.new ≡ state.old) }
{
    let domains = &state.domains;
    let label = Label {
        domain: d as u32,
        serial: domains.items[d].serial + 1,
    };
    let graph = &mut state.graph;
    graph.items.push((label, node))?;
    state.kept += 1;
    let domains = &mut state.domains;
    let domain = &mut domains.items[d];
    domain.serial = label.serial;
    set_register(state, d, dst, Value::Block(label));
    Ok(Reply::Block(label))
}

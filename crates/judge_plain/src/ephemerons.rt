//! The commands on ephemerons.
ghost use Rattle.std.specs.Prelude.{◌≡◌, ◌<◌, length};
ghost use Rattle.model_core.specs.Commands.{block_in, at_ephe, key_set, datum_set, outcome};
ghost use Rattle.judge_plain.specs.Writes.{key_reply, key_left, datum_reply, datum_left};

use crate::blocks::block_place;
use crate::registers::{read_into, register};
use model_core::command::Command;
use model_core::graph::{Node, Value};
use model_core::label::Label;
use model_core::reply::Reply;
use model_core::state::State;

// A key of the ephemeron in `ephe` becomes the label in `item`.
pub(crate) fn set_key(state: &mut State, d: usize, ephe: u8, index: u16, item: u8) -> Reply
    requires { d < length state.old.domains }
    ensures reply { result ≡ (outcome state.old d (Command.SetKey ephe index item)).reply }
    ensures state { state.new ≡ (outcome state.old d (Command.SetKey ephe index item)).state }
{
    match register(state, d, item) {
        Value::Block(l) => write_key(state, d, ephe, usize::from(index), Some(l)),
        _ => Reply::BadType,
    }
}

// The data of the ephemeron in `ephe` becomes what `item` holds.
pub(crate) fn set_data(state: &mut State, d: usize, ephe: u8, item: u8) -> Reply
    requires { d < length state.old.domains }
    ensures reply { result ≡ (outcome state.old d (Command.SetData ephe item)).reply }
    ensures state { state.new ≡ (outcome state.old d (Command.SetData ephe item)).state }
{
    match register(state, d, item) {
        Value::Nothing => Reply::BadType,
        value => write_datum(state, d, ephe, value),
    }
}

// A key of the ephemeron in `ephe` is set or emptied.
pub(crate) fn write_key(
    state: &mut State,
    d: usize,
    ephe: u8,
    index: usize,
    key: Option<Label>,
) -> Reply
    requires { d < length state.old.domains }
    ensures reply { result ≡ (at_ephe state.old (block_in state.old d ephe) (key_set state.old index key)).reply }
    ensures state { state.new ≡ (at_ephe state.old (block_in state.old d ephe) (key_set state.old index key)).state }
{
    let Some(i) = block_place(state, d, ephe) else {
        return Reply::BadType;
    };
    let graph = &mut state.graph;
    let block = &mut graph.items[i];
    write_key_in(&mut block.1, index, key)
}

// A key of a block is set or emptied, where it is an ephemeron.
fn write_key_in(node: &mut Node, index: usize, key: Option<Label>) -> Reply
    ensures reply { result ≡ key_reply node.old index }
    ensures node { node.new ≡ key_left node.old index key }
{
    match node {
        Node::Ephe { keys, .. } => {
            if index < keys.items.len() {
                keys.items[index] = key;
                Reply::Done
            } else {
                Reply::BadIndex
            }
        }
        Node::Plain { .. } | Node::Raw { .. } => Reply::BadType,
    }
}

// The data of the ephemeron in `ephe` is set or emptied.
pub(crate) fn write_datum(state: &mut State, d: usize, ephe: u8, value: Value) -> Reply
    requires { d < length state.old.domains }
    ensures reply { result ≡ (at_ephe state.old (block_in state.old d ephe) (datum_set state.old value)).reply }
    ensures state { state.new ≡ (at_ephe state.old (block_in state.old d ephe) (datum_set state.old value)).state }
{
    let Some(i) = block_place(state, d, ephe) else {
        return Reply::BadType;
    };
    let graph = &mut state.graph;
    let block = &mut graph.items[i];
    write_datum_in(&mut block.1, value)
}

// The data of a block is set or emptied, where it is an ephemeron.
fn write_datum_in(node: &mut Node, value: Value) -> Reply
    ensures reply { result ≡ datum_reply node.old }
    ensures node { node.new ≡ datum_left node.old value }
{
    match node {
        Node::Ephe { datum, .. } => {
            *datum = value;
            Reply::Done
        }
        Node::Plain { .. } | Node::Raw { .. } => Reply::BadType,
    }
}

// A key of the ephemeron in `ephe` goes into `dst`.
pub(crate) fn get_key(state: &mut State, d: usize, dst: u8, ephe: u8, index: u16) -> Reply
    requires { d < length state.old.domains }
    ensures reply { result ≡ (outcome state.old d (Command.GetKey dst ephe index)).reply }
    ensures state { state.new ≡ (outcome state.old d (Command.GetKey dst ephe index)).state }
{
    let Some(i) = block_place(state, d, ephe) else {
        return Reply::BadType;
    };
    let graph = &state.graph;
    let Node::Ephe { keys, .. } = &graph.items[i].1 else {
        return Reply::BadType;
    };
    let Some(key) = keys.items.get(usize::from(index)) else {
        return Reply::BadIndex;
    };
    let value = match *key {
        Some(l) => Value::Block(l),
        None => Value::Nothing,
    };
    read_into(state, d, dst, value)
}

// Whether a key of the ephemeron in `ephe` is full.
pub(crate) fn check_key(state: &State, d: usize, ephe: u8, index: u16) -> Reply
    requires { d < length state.now.domains }
    ensures reply { result ≡ (outcome state.now d (Command.CheckKey ephe index)).reply }
    ensures state { state.now ≡ (outcome state.now d (Command.CheckKey ephe index)).state }
{
    let Some(i) = block_place(state, d, ephe) else {
        return Reply::BadType;
    };
    let graph = &state.graph;
    let Node::Ephe { keys, .. } = &graph.items[i].1 else {
        return Reply::BadType;
    };
    match keys.items.get(usize::from(index)) {
        None => Reply::BadIndex,
        Some(None) => Reply::No,
        Some(Some(_)) => Reply::Yes,
    }
}

// The data of the ephemeron in `ephe` goes into `dst`.
pub(crate) fn get_data(state: &mut State, d: usize, dst: u8, ephe: u8) -> Reply
    requires { d < length state.old.domains }
    ensures reply { result ≡ (outcome state.old d (Command.GetData dst ephe)).reply }
    ensures state { state.new ≡ (outcome state.old d (Command.GetData dst ephe)).state }
{
    let Some(i) = block_place(state, d, ephe) else {
        return Reply::BadType;
    };
    let graph = &state.graph;
    let Node::Ephe { datum, .. } = &graph.items[i].1 else {
        return Reply::BadType;
    };
    let value = *datum;
    read_into(state, d, dst, value)
}

// Whether the data of the ephemeron in `ephe` is full.
pub(crate) fn check_data(state: &State, d: usize, ephe: u8) -> Reply
    requires { d < length state.now.domains }
    ensures reply { result ≡ (outcome state.now d (Command.CheckData ephe)).reply }
    ensures state { state.now ≡ (outcome state.now d (Command.CheckData ephe)).state }
{
    let Some(i) = block_place(state, d, ephe) else {
        return Reply::BadType;
    };
    let graph = &state.graph;
    let Node::Ephe { datum, .. } = &graph.items[i].1 else {
        return Reply::BadType;
    };
    match *datum {
        Value::Nothing => Reply::No,
        _ => Reply::Yes,
    }
}

//! The commands on the fields of plain and raw blocks.
ghost use Rattle.std.specs.Prelude.{◌≡◌, ◌≢◌, ◌<◌, length, slice_get, Some};
ghost use Rattle.model_core.specs.Commands.{block_in, outcome, same_value};
ghost use Rattle.judge_plain.specs.Writes.{fields_reply, fields_left, field_reply, field_left, written_field};

use crate::blocks::block_place;
use crate::registers::{read_into, register};
use model_core::command::Command;
use model_core::graph::{Node, Value};
use model_core::reply::Reply;
use model_core::sequence::{Sequence, at};
use model_core::state::State;

// A field of the block in `src` goes into `dst`.
pub(crate) fn load(state: &mut State, d: usize, dst: u8, src: u8, index: u16) -> Reply
    requires { d < length state.old.domains }
    ensures reply { result ≡ (outcome state.old d (Command.Load dst src index)).reply }
    ensures state { state.new ≡ (outcome state.old d (Command.Load dst src index)).state }
{
    let Some(i) = block_place(state, d, src) else {
        return Reply::BadType;
    };
    let graph = &state.graph;
    let held = match &graph.items[i].1 {
        Node::Plain { fields, .. } => at(fields, usize::from(index)),
        Node::Raw { fields, .. } => at(fields, usize::from(index)),
        Node::Ephe { .. } => return Reply::BadType,
    };
    match held {
        Some(value) => read_into(state, d, dst, value),
        None => Reply::BadIndex,
    }
}

// A value goes into a field of the block in `block`.
pub(crate) fn store(state: &mut State, d: usize, block: u8, index: u16, item: u8) -> Reply
    requires { d < length state.old.domains }
    ensures reply { result ≡ (outcome state.old d (Command.Store block index item)).reply }
    ensures state { state.new ≡ (outcome state.old d (Command.Store block index item)).state }
{
    match register(state, d, item) {
        Value::Nothing => Reply::BadType,
        value => write(state, d, block, usize::from(index), value, None),
    }
}

// A value goes into a field of the block in `block`, where it holds what `expected` holds.
pub(crate) fn cas(
    state: &mut State,
    d: usize,
    block: u8,
    index: u16,
    expected: u8,
    item: u8,
) -> Reply
    requires { d < length state.old.domains }
    ensures reply { result ≡ (outcome state.old d (Command.Cas block index expected item)).reply }
    ensures state { state.new ≡ (outcome state.old d (Command.Cas block index expected item)).state }
{
    let expects = register(state, d, expected);
    if let Value::Nothing = expects {
        return Reply::BadType;
    }
    match register(state, d, item) {
        Value::Nothing => Reply::BadType,
        value => write(state, d, block, usize::from(index), value, Some(expects)),
    }
}

// Writes a value into a field of the block in `block`, where it holds what is expected.
fn write(
    state: &mut State,
    d: usize,
    block: u8,
    index: usize,
    value: Value,
    expected: Option<Value>,
) -> Reply
    requires domain { d < length state.old.domains }
    requires full { value ≢ Value.Nothing }
    requires expects { expected ≢ Some Value.Nothing }
    ensures reply { result ≡ (written_field state.old index (block_in state.old d block) value expected).reply }
    ensures state { state.new ≡ (written_field state.old index (block_in state.old d block) value expected).state }
{
    let Some(i) = block_place(state, d, block) else {
        return Reply::BadType;
    };
    let graph = &mut state.graph;
    let block = &mut graph.items[i];
    write_field(&mut block.1, index, value, expected)
}

// Writes a value into a field of a block, where it holds what is expected.
fn write_field(node: &mut Node, index: usize, value: Value, expected: Option<Value>) -> Reply
    ensures reply { result ≡ field_reply node.old index value expected }
    ensures node { node.new ≡ field_left node.old index value expected }
{
    match node {
        Node::Plain { fields, .. } => write_value(fields, index, value, expected),
        Node::Raw { fields, .. } => match value {
            Value::Int(_) => write_value(fields, index, value, expected),
            _ => Reply::BadType,
        },
        Node::Ephe { .. } => Reply::BadType,
    }
}

// Writes a value into one of these fields, where it holds what is expected.
fn write_value(
    fields: &mut Sequence<Value>,
    index: usize,
    value: Value,
    expected: Option<Value>,
) -> Reply
    ensures reply { result ≡ fields_reply (slice_get fields.old index) expected }
    ensures fields { fields.new ≡ fields_left fields.old index value (slice_get fields.old index) expected }
{
    let Some(held) = at(fields, index) else {
        return Reply::BadIndex;
    };
    let Some(expected) = expected else {
        fields.items[index] = value;
        return Reply::Done;
    };
    if is_same(held, expected) {
        fields.items[index] = value;
        Reply::Yes
    } else {
        Reply::No
    }
}

// Whether two values are the same integer or the same block.
fn is_same(a: Value, b: Value) -> bool
    ensures { result ≡ same_value a b }
{
    match (a, b) {
        (Value::Int(a), Value::Int(b)) => a == b,
        (Value::Block(a), Value::Block(b)) => a == b,
        _ => false,
    }
}

//! Registers. A register past the last holds nothing, and a write to it is lost.
ghost use Rattle.std.specs.Prelude.{◌≡◌, ◌<◌, length};
ghost use Rattle.model_core.specs.Domains.{register as register_value, with_register};
ghost use Rattle.model_core.specs.Commands.{done_with, read_into as value_read, shown as shown_reply};

use model_core::graph::Value;
use model_core::reply::Reply;
use model_core::state::State;

// What a register holds.
pub(crate) fn register(state: &State, d: usize, r: u8) -> Value
    requires { d < length state.now.domains }
    ensures { result ≡ register_value state.now d r }
{
    let domains = &state.domains;
    let registers = &domains.items[d].registers;
    registers
        .items
        .get(usize::from(r))
        .copied()
        .unwrap_or(Value::Nothing)
}

// Puts a value into a register.
pub(crate) fn set_register(state: &mut State, d: usize, r: u8, value: Value)
    requires { d < length state.old.domains }
    ensures { state.new ≡ with_register state.old d r value }
{
    let domains = &mut state.domains;
    let domain = &mut domains.items[d];
    let registers = &mut domain.registers;
    if usize::from(r) < registers.items.len() {
        registers.items[usize::from(r)] = value;
    }
}

// Puts a value into a register, and answers `ok`.
pub(crate) fn put(state: &mut State, d: usize, dst: u8, value: Value) -> Reply
    requires { d < length state.old.domains }
    ensures reply { result ≡ (done_with (with_register state.old d dst value)).reply }
    ensures state { state.new ≡ (done_with (with_register state.old d dst value)).state }
{
    set_register(state, d, dst, value);
    Reply::Done
}

// Puts a value into a register, and shows it.
pub(crate) fn read_into(state: &mut State, d: usize, dst: u8, value: Value) -> Reply
    requires { d < length state.old.domains }
    ensures reply { result ≡ (value_read state.old d dst value).reply }
    ensures state { state.new ≡ (value_read state.old d dst value).state }
{
    set_register(state, d, dst, value);
    shown(value)
}

// The reply that shows a value.
fn shown(value: Value) -> Reply
    ensures { result ≡ shown_reply value }
{
    match value {
        Value::Int(z) => Reply::Int(z),
        Value::Block(l) => Reply::Block(l),
        Value::Nothing => Reply::Empty,
    }
}

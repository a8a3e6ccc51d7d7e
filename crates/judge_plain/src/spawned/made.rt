//! A command that a domain has made.
ghost use Rattle.std.specs.Prelude.{◌≡◌, ◌↔◌, IsTrue, slice_index_or};
ghost use Rattle.model_core.specs.Commands.{is_full_value};
ghost use Rattle.model_core.specs.declared.graph.Value.TheVariants.{Nothing as NothingOf};
ghost use Rattle.model_traces.specs.Spawns.Expansion.{is_int as is_this_int};

use crate::history::same_command;
use model_core::command::Command;
use model_core::graph::Value;
use model_core::reply::Reply;
use model_core::sequence::{Sequence, at};
use std::marker::Model;

/// A command of a domain: what the registers held before it, and what it answered.
#[derive(Drop)]
pub(crate) struct Made {
    pub held: Sequence<Value>,
    pub command: Command,
    pub answer: Reply,
}

impl Model for Made {
    ghost use Rattle.model_traces.specs.Spawns.Expansion.{Step};

    ghost Value = { Step };

    ghost view = { λ m. record { held = m.held; command = m.command; answer = m.answer } };
}

// Whether a reply is this integer.
fn is_int(value: i64, reply: &Reply) -> bool
    ensures { result ≡ is_this_int value reply.now }
{
    match reply {
        Reply::Int(shown) => *shown == value,
        _ => false,
    }
}

// Whether a value is an integer or a block.
fn is_full(value: Value) -> bool
    ensures { result ≡ is_full_value value }
{
    match value {
        Value::Nothing => false,
        _ => true,
    }
}

// Whether there is a value at a place, and it is an integer or a block.
fn is_full_at(held: &Sequence<Value>, place: usize) -> bool
    ensures { result ≡ is_full_value (slice_index_or held.now place NothingOf) }
{
    let Some(value) = at(held, place) else {
        return false;
    };
    is_full(value)
}

impl Made {
    /// Whether it is this command.
    pub(crate) fn is(&self, command: Command) -> bool
        ensures { IsTrue result ↔ (self.now.command ≡ command) }
    {
        same_command(self.command, command)
    }

    /// Whether it answered this integer.
    pub(crate) fn answers(&self, value: i64) -> bool
        ensures { result ≡ is_this_int value self.now.answer }
    {
        is_int(value, &self.answer)
    }

    /// Whether a register held something before it.
    pub(crate) fn held_something(&self, register: u8) -> bool
        ensures { result ≡ is_full_value (slice_index_or self.now.held register NothingOf) }
    {
        is_full_at(&self.held, register as usize)
    }
}

//! What stays of a domain while commands are made of it at once.
use heap_rule::Heap;
use std::marker::Model;

/// Replies of finalisers that wait to be taken. No value of it is made.
pub struct Kept {}

impl Model for Kept {
    ghost use Rattle.std.specs.Prelude.{List, []};
    ghost use Rattle.model_core.specs.declared.reply.Reply.{Reply};

    ghost Value = { List Reply };

    ghost view = { λ k. [] };
}

/// What stays of a domain: its heap, whether it waits for its next command, how many finalisers are registered, and the
/// replies of those that ran and weren't taken. No value of it is made.
pub struct Standing {
    /// The heap.
    pub heap: Heap,
    /// Whether it is open, and has no command to make.
    pub waits: bool,
    /// How many finalisers are registered.
    pub registered: u64,
    /// The replies that wait to be taken.
    pub ran: Kept,
}

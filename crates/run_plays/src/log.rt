//! What whoever plays a domain was told.
use model_core::command::Command;
use model_core::reply::Reply;
use std::marker::Model;

/// What a domain's player was told: the commands that it made, each once and in order, with the replies that were read,
/// and the finalisers that ran.
#[derive(Drop)]
pub struct Log {
    pub made: Vec<(Command, Reply)>,
    pub told: Vec<Reply>,
}

impl Model for Log {
    ghost use Rattle.run_plays.specs.Plays.{LogView};

    ghost Value = { LogView };

    ghost view = { λ l. record { made = l.made.items; told = l.told.items } };
}

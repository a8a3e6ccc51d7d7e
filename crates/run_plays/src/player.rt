//! A domain that somebody plays.
ghost use Rattle.std.specs.Prelude.{◌≡◌, [], None, IfOk, IfErr};
ghost use Rattle.run_plays.specs.Playing.{Awaited, Calls, Keeps, Takes};
ghost use Rattle.run_plays.specs.Plays.{IsLogOf, IsNew, run_seat, seat_of};

use crate::log::Log;
use model_core::command::Command;
use model_core::reply::Reply;
use run_seats::shared::{Refused, SharedRun};
use run_turns::singly::Came;
use std::alloc::{AllocError, Global};
use std::marker::Model;

/// What handing in a command came to.
#[derive(Clone, Copy)]
pub enum Called {
    /// It was made at once, with this reply.
    Made(Reply),
    /// It is to be awaited, turn by turn.
    Waits,
    /// It wasn't taken, and nothing has changed.
    Refused(Refused),
}

/// A domain with a share of its heap, and the log of its calls: the commands that it made, with the replies that were
/// read, and the finalisers that were told. Its front has of its domain exactly these, and behind the finalisers those
/// that wait to be taken.
#[derive(Drop)]
pub struct Player {
    run: SharedRun,
    made: Vec<(Command, Reply)>,
    told: Vec<Reply>,
    awaits: Option<Command>,
}

impl Model for Player {
    ghost use Rattle.run_plays.specs.Playing.{IsPlayed, PlayerView};

    ghost Value = { PlayerView };

    ghost view = { λ p. record { shared = p.run; made = p.made.items; told = p.told.items; awaits = p.awaits } };

    ghost invariant = { λ p. IsPlayed (record { shared = p.run; made = p.made.items; told = p.told.items; awaits = p.awaits }) };
}

impl Player {
    /// Whoever plays this domain was told nothing so far, and the domain has made no entry.
    pub fn of(alloc: Global, run: SharedRun) -> Player
        requires new { IsNew run }
        ensures { result ≡ record { shared = run; made = []; told = []; awaits = None } }
    {
        Player {
            run,
            made: Vec::new(alloc),
            told: Vec::new(alloc),
            awaits: None,
        }
    }

    /// Hands in a command, and makes it at once where that can be. Refused for want of memory for the log alone, and
    /// then nothing has changed.
    pub fn call(&mut self, command: Command) -> Result<Called, AllocError>
        ensures called { IfOk result (Calls command self.old self.new) }
        ensures same { IfErr result (λ _. self.new ≡ self.old) }
    {
        self.made.try_reserve(1)?;
        match self.run.begin(command) {
            Ok(Some(reply)) => {
                self.made.push_reserved((command, reply));
                self.awaits = None;
                Ok(Called::Made(reply))
            }
            Ok(None) => {
                self.awaits = Some(command);
                Ok(Called::Waits)
            }
            Err(why) => Ok(Called::Refused(why)),
        }
    }

    /// One turn of the domain: how far it came, and the reply where the command was made that is awaited. Refused for
    /// want of memory for the log alone, and then nothing has changed.
    pub fn turn(&mut self) -> Result<(Came, Option<Reply>), AllocError>
        ensures awaited { IfOk result (λ r. Awaited self.old self.new r.1) }
        ensures same { IfErr result (λ _. self.new ≡ self.old) }
    {
        self.made.try_reserve(1)?;
        let came = self.run.turn();
        let Some(command) = self.awaits else {
            return Ok((came, None));
        };
        let Some(reply) = self.run.answer() else {
            return Ok((came, None));
        };
        self.made.push_reserved((command, reply));
        self.awaits = None;
        Ok((came, Some(reply)))
    }

    /// Takes the oldest finaliser that has run and wasn't taken yet. Refused for want of memory for the log alone, and
    /// then nothing has changed.
    pub fn take(&mut self) -> Result<Option<Reply>, AllocError>
        ensures takes { IfOk result (Takes self.old self.new) }
        ensures same { IfErr result (λ _. self.new ≡ self.old) }
    {
        self.told.try_reserve(1)?;
        let Some(reply) = self.run.take_ran() else {
            return Ok(None);
        };
        self.told.push_reserved(reply);
        Ok(Some(reply))
    }

    /// What a register holds. None exactly where there is no such register. The log stays as it is.
    pub fn show(&mut self, register: u8) -> Option<Reply>
        ensures keeps { Keeps self.old self.new }
        ensures awaits { self.new.awaits ≡ self.old.awaits }
    {
        self.run.show(register)
    }

    /// No command comes any more, where that can be said. The log stays as it is.
    pub fn close(&mut self) -> Result<(), Refused>
        ensures keeps { Keeps self.old self.new }
        ensures awaits { self.new.awaits ≡ self.old.awaits }
    {
        self.run.close()
    }

    // Takes all finalisers that wait.
    fn take_all(&mut self) -> Result<(), AllocError>
        ensures seat { seat_of self.new ≡ seat_of self.old }
        ensures none { IfOk result (λ _. self.new.shared.run.ran ≡ []) }
    {
        for _ in 0..self.run.ran_len() {
            self.take()?;
        }
        Ok(())
    }

    /// The domain with its share of the heap, and its log, once all finalisers that wait were taken: the domain's front
    /// has of it just what the log says.
    pub fn into_parts(self) -> Result<(SharedRun, Log), AllocError>
        ensures seat { IfOk result (λ p. run_seat p.0 ≡ seat_of self) }
        ensures log { IfOk result (λ p. IsLogOf p.1 p.0) }
    {
        let mut player = self;
        player.take_all()?;
        let Player {
            run,
            made,
            told,
            ..
        } = player;
        Ok((run, Log { made, told }))
    }
}

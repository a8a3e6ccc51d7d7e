//! A bed in which a domain rests.
ghost use Rattle.std.specs.Prelude.{◌≡◌, ◌≢◌, ◌↔◌, ◌+◌, ◌<◌, true, false, IfOk, IfErr, IfSome, None, Some};
ghost use Rattle.run_seats.specs.Beds.Bedding.{IsSameBed, MakesNone, plain_bed};
ghost use Rattle.run_seats.specs.Shared.Idling.{IsKeptOut, StaysAlong};
ghost use Rattle.run_seats.specs.Shared.Leaving.{IsKeptBack, IsLeftAs, RestsOn};
ghost use Rattle.run_seats.specs.Shared.Sharing.{MayClose, SharedView};

use crate::beds::{Bed, NoBed};
use crate::shared::idle::Idle;
use crate::shared::shared::{Refused, SharedRun};
use std::alloc::{AllocError, Global};
use std::marker::Model;

/// Why a domain isn't put to rest. Nothing has changed then.
#[derive(Clone, Copy, Debug, PartialEq, Eq)]
pub enum NotRested {
    /// Its trace is closed, or the last command isn't done.
    Refused(Refused),
    /// Something rests in the bed.
    Taken,
    /// Another thread is in the way.
    Blocked,
}

/// A bed in which a domain rests, whichever its heap. Contracts see the domain, as it was put to rest.
#[derive(Drop)]
pub struct RunBed {
    bed: Bed<Idle>,
}

impl Model for RunBed {
    ghost use Rattle.run_seats.specs.Beds.Bedding.{BedView};
    ghost use Rattle.run_seats.specs.Shared.Sharing.{SharedView};

    ghost Value = { BedView SharedView };

    ghost view = { λ b. b.bed };
}

impl RunBed {
    /// The first bed of a new room.
    pub fn make(alloc: Global) -> Result<RunBed, AllocError>
        ensures { IfOk result (λ b. b ≡ record { rests = None; makes = true; beds = 1; keeps = false; lost = false }) }
    {
        Ok(RunBed {
            bed: Bed::make(alloc)?,
        })
    }

    /// Whether it may make another, as the first of its room may while there are fewer than 64, and else why not.
    pub fn may_make(&self) -> Result<(), NoBed>
        ensures may { IfOk result (λ _. (self.now.makes ≡ true) × (self.now.beds < 64)) }
        ensures why { IfErr result (MakesNone self.now) }
    {
        self.bed.may_make()
    }

    /// Another bed of the room of this one, which is its first. There are 64 at most.
    pub fn another(&mut self) -> Result<RunBed, NoBed>
        ensures made { IfOk result (λ b. (b ≡ plain_bed) × (self.new ≡ record self.old { beds = self.old.beds + 1 })) }
        ensures may { IfOk result (λ _. (self.old.makes ≡ true) × (self.old.beds < 64)) }
        ensures why { IfErr result (MakesNone self.old) }
        ensures same { IfErr result (λ _. self.new ≡ self.old) }
    {
        match self.bed.another() {
            Ok(bed) => Ok(RunBed { bed }),
            Err(why) => Err(why),
        }
    }

    /// Whether nothing rests there.
    pub fn is_free(&self) -> bool
        ensures { (result ≡ true) ↔ (self.now.rests ≡ None) }
    {
        self.bed.is_free()
    }

    /// Puts a domain to rest. Its trace is open, and its last command is done; and nothing rests there yet. Else, and
    /// where another thread is in the way, it comes back.
    pub fn rest(&mut self, run: Box<SharedRun>) -> Result<(), (Box<SharedRun>, NotRested)>
        ensures rests { IfOk result (λ _. self.new ≡ record self.old { rests = Some run.value; keeps = false }) }
        ensures may { IfOk result (λ _. MayClose run.value × (self.old.rests ≡ None)) }
        ensures back { IfErr result (λ e. e.0.value ≡ run.value) }
        ensures why { IfErr result (λ e. IsKeptOut self.old run.value e.1) }
        ensures same { IfErr result (λ _. IsSameBed self.old self.new) }
    {
        if let Err(why) = run.may_close() {
            return Err((run, NotRested::Refused(why)));
        }
        if !self.bed.is_free() {
            return Err((run, NotRested::Taken));
        }
        match self.bed.rest(Idle::of(run)) {
            Ok(()) => Ok(()),
            Err(idle) => Err((idle.into_run(), NotRested::Blocked)),
        }
    }

    /// Puts a domain to rest that leaves: its trace is closed, at once or behind the command that it has to make, and whoever
    /// has a bed of the room turns it to its end. It comes back where something rests there, and then as it was; and where
    /// another thread is in the way.
    pub fn leave(&mut self, run: Box<SharedRun>) -> Result<(), (Box<SharedRun>, NotRested)>
        ensures rests { IfOk result (λ _. (y : SharedView) × (IsLeftAs run.value y × (self.new ≡ record self.old { rests = Some y; keeps = false }))) }
        ensures free { IfOk result (λ _. self.old.rests ≡ None) }
        ensures back { IfErr result (λ e. IsKeptBack self.old run.value e.0.value e.1) }
        ensures same { IfErr result (λ _. IsSameBed self.old self.new) }
    {
        if !self.bed.is_free() {
            return Err((run, NotRested::Taken));
        }
        let mut run = run;
        run.shuts();
        match self.bed.rest(Idle::of(run)) {
            Ok(()) => Ok(()),
            Err(idle) => Err((idle.into_run(), NotRested::Blocked)),
        }
    }

    /// The domain that rests there, maybe further on. One whose trace is open and that had no command to make has made none
    /// meanwhile; finalisers of it may have run. None where none rests there, and where another thread has it at the moment or
    /// is in the way.
    pub fn resume(&mut self) -> Option<Box<SharedRun>>
        ensures on { IfSome result (λ run. (y : SharedView) × ((self.old.rests ≡ Some y) × RestsOn y run.value)) }
        ensures free { IfSome result (λ _. self.new ≡ record self.old { rests = None; keeps = false }) }
        ensures same { result ≡ None → IsSameBed self.old self.new }
    {
        let idle = self.bed.resume()?;
        Some(idle.into_run())
    }

    /// Puts back what couldn't be put back so far, in many tries. Answers whether it keeps no domain of another bed then: else
    /// it isn't to be freed, since that domain would be lost.
    pub fn gives_back(&mut self) -> bool
        ensures same { IsSameBed self.old self.new }
        ensures given { (result ≡ true) ↔ (self.new.keeps ≡ false) }
    {
        self.bed.gives_back()
    }

    /// One turn of a domain that rests in the room, if one can be had at once. Answers whether it did something.
    pub fn attend(&mut self) -> bool
        ensures { IsSameBed self.old self.new }
    {
        self.bed.attend()
    }
}

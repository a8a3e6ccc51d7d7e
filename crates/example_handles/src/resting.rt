//! Handles whose seat rests.
ghost use Rattle.std.specs.Prelude.{◌≡◌, IfOk, map};
ghost use Rattle.std.specs.List.{AllByRecursion};
ghost use Rattle.example_handles.specs.Handling.{GoesBy, IsLater, IsUnused, Settles, no_handles};
ghost use Rattle.run_seats.specs.Seating.{IsSeatOf};

use crate::handles::Handles;
use crate::resource::{Resource, close_waiting};
use run_seats::{Resting, Seats};
use std::alloc::{AllocError, Global};
use std::marker::Model;
use std::sync::Wait;

/// Handles whose owner does something else. Their seat holds up no pause.
#[derive(Drop)]
pub struct RestingHandles {
    pub(crate) seat: Resting,
    pub(crate) resources: Vec<Resource>,
    pub(crate) most: u32,
}

impl Model for RestingHandles {
    ghost use Rattle.std.specs.Prelude.{◌≤◌, vec_capacity};
    ghost use Rattle.example_handles.specs.Handling.{HandlesView, IsHandles};

    ghost Value = { HandlesView };

    ghost view = { λ h. record { seat = h.seat; resources = h.resources.items; most = h.most } };

    ghost invariant = { λ h. IsHandles (record { seat = h.seat; resources = h.resources.items; most = h.most }) × (h.most ≤ vec_capacity h.resources) };
}

impl RestingHandles {
    /// The handles, on which no command was made meanwhile. The resources are closed whose finalisers have run.
    pub fn resume<R: Wait>(self, rt: &R, seats: &Seats) -> Handles
        requires here { IsSeatOf seats.now self.seat }
        ensures seat { IsLater self.seat result.seat }
        ensures most { result.most ≡ self.most }
        ensures along { GoesBy self.seat result.seat }
        ensures settles { Settles self result }
    {
        let RestingHandles {
            seat,
            mut resources,
            most,
        } = self;
        let mut seat = seat.resume(rt, seats);
        close_waiting(&mut seat, &mut resources);
        Handles {
            seat,
            resources,
            most,
        }
    }
}

// No resources as yet of each of these seats, of so many at most.
pub(crate) fn with_none(
    alloc: Global,
    seats: Vec<Resting>,
    most: u32,
) -> Result<Vec<RestingHandles>, AllocError>
    requires unused { AllByRecursion (IsUnused most) seats.items }
    ensures { IfOk result (λ all. all.items ≡ map (no_handles most) seats.items) }
{
    let mut all = Vec::new(alloc);
    'seats: for seat in seats {
        let resources = Vec::with_capacity(alloc, most as usize)?;
        all.push(RestingHandles {
            seat,
            resources,
            most,
        })?;
    }
    Ok(all)
}

//! Resources, and how they are closed.
ghost use Rattle.std.specs.Prelude.{◌≡◌, ◌+◌, ◌∷◌, [], length, slice_get};
ghost use Rattle.example_handles.specs.Resources.{Closes, Settled, is_open};

use model_core::reply::Reply;
use run_seats::Seat;

/// What a resource is. It stands for a file descriptor or the like.
#[derive(Clone, Copy, Debug, PartialEq, Eq)]
pub enum Resource {
    /// It may be used.
    Open,
    /// Its owner closed it.
    ClosedByOwner,
    /// Its finaliser closed it, since nothing led to its handle any more.
    ClosedByFinaliser,
}

// Closes a resource, where it is open. Answers whether it was.
pub(crate) fn close(resources: &mut [Resource], number: u32, closed: Resource) -> bool
    ensures open { result ≡ is_open (slice_get resources.old number) }
    ensures closes { Closes resources.old number closed resources.new }
{
    let place = number as usize;
    match resources.get(place) {
        Some(Resource::Open) => {
            resources[place] = closed;
            true
        }
        _ => false,
    }
}

// Closes the resource whose finaliser made this reply, where it is open.
fn close_named(resources: &mut [Resource], ran: Reply)
    ensures settled { Settled resources.old (ran ∷ []) resources.new }
{
    if let Reply::Last { number } = ran {
        close(resources, number, Resource::ClosedByFinaliser);
    }
}

// Takes the replies of all finalisers that ran and wait, and closes their resources.
pub(crate) fn close_waiting(seat: &mut Seat, resources: &mut [Resource])
    ensures settled { Settled resources.old seat.old.ran resources.new }
    ensures taken { seat.new ≡ record seat.old { ran = []; finals = seat.new.finals } }
    ensures finals { seat.new.finals ≡ seat.old.finals + length seat.old.ran }
{
    'waiting: for _place in 0..seat.ran_len() {
        let Some(ran) = seat.take_ran() else {
            unreachable!()
        };
        close_named(resources, ran);
    }
}

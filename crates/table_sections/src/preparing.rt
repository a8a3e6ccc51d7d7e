//! The seats of the domains, until each has what all share in its registers.
ghost use Rattle.std.specs.Prelude.{◌≡◌, ◌<◌, ◌≤◌, IfOk, length};
ghost use Rattle.std.specs.Option.{ForSome};
ghost use Rattle.table_sections.specs.Preparing.{AllFresh, AllReady, IsFresh, IsReady};

use crate::laying::{Places, find, lay_out};
use heap_rule::Config;
use run_seats::{Resting, Seats};
use run_session::domains::SeatDomain;
use std::alloc::{AllocError, Global};
use std::sync::Wait;

// The first domain makes what all share. None where an allocation is refused.
fn prepare_first<R: Wait>(
    rt: &R,
    seats: &Seats,
    config: Config,
    resting: Resting,
) -> Option<(Resting, Places)>
    requires config { config ≡ seats.now.heap.config }
    requires fresh { IsFresh seats.now 0 resting }
    requires room { 3 ≤ config.ephes }
    ensures ready { ForSome result (λ r. IsReady seats.now r.1 0 r.0) }
{
    let mut domain = SeatDomain::resume(rt, seats, config, resting);
    let places = lay_out(&mut domain, rt)?;
    Some((domain.rest(rt), places))
}

// Another domain loads it. None where it finds anything else.
fn prepare_other<R: Wait>(
    rt: &R,
    seats: &Seats,
    config: Config,
    resting: Resting,
    places: Places,
) -> Option<Resting>
    requires config { config ≡ seats.now.heap.config }
    requires fresh { IsFresh seats.now resting.number resting }
    requires other { 0 < resting.number }
    ensures ready { ForSome result (λ r. IsReady seats.now places resting.number r) }
{
    let mut domain = SeatDomain::resume(rt, seats, config, resting);
    if !find(&mut domain, rt, places) {
        return None;
    }
    Some(domain.rest(rt))
}

/// Prepares all domains, the first before the others. Their seats rest before and behind.
pub(crate) fn prepare_all<R: Wait>(
    rt: &R,
    alloc: Global,
    seats: &Seats,
    config: Config,
    all: Vec<Resting>,
) -> Result<(Places, Vec<Resting>), AllocError>
    requires some { 0 < length all.items }
    requires config { config ≡ seats.now.heap.config }
    requires fresh { AllFresh seats.now 0 all.items }
    requires room { 3 ≤ config.ephes }
    ensures ready { IfOk result (λ r. AllReady seats.now r.0 0 r.1.items) }
    ensures len { IfOk result (λ r. length r.1.items ≡ length all.items) }
{
    let mut ready = Vec::with_capacity(alloc, all.len())?;
    let mut all = all;
    let Some((first, places)) = prepare_first(rt, seats, config, all.remove(0)) else {
        return Err(AllocError);
    };
    ready.push(first)?;
    'others: for resting in all {
        let Some(resting) = prepare_other(rt, seats, config, resting, places) else {
            return Err(AllocError);
        };
        ready.push(resting)?;
    }
    Ok((places, ready))
}

//! The start and the end of a heap whose seats have handles.
ghost use Rattle.std.specs.Prelude.{◌≡◌, ◌<◌, ◌≤◌, [], IfOk, length, map, vec_capacity};
ghost use Rattle.example_handles.specs.Handling.{AllHandlesOf, EachDid, IsSpare, PartsEach, LeavesEach, TellsOutside, config_for, no_handles};
ghost use Rattle.model_core.specs.History.{Legal};
ghost use Rattle.heap_rule.specs.Limits.{sizes_in};
ghost use Rattle.run_seats.specs.Seating.{fresh_seats};

use crate::handles::Handles;
use crate::resource::Resource;
use crate::resting::{RestingHandles, with_none};
use heap_rule::{Config, Ended, StartFault};
use model_core::command::Command;
use run_seats::{Seat, Seats};
use std::alloc::{AllocError, Global};
use std::sync::Wait;

impl Handles {
    /// A heap of so many domains, with so many words in each minor area (a multiple of 4096) and so many pools, and a
    /// seat of each domain, at rest, with no resources as yet, of so many at most.
    ///
    /// `Config(k)` names the first of the heap's numbers outside its limit, as for [`Seats::make`].
    pub fn make<R: Wait>(
        rt: &R,
        alloc: Global,
        domains: u32,
        minor_words: u32,
        pools: u32,
        most: u32,
    ) -> Result<(Seats, Vec<RestingHandles>), StartFault>
        ensures outside { TellsOutside (config_for domains minor_words pools most) result }
        ensures config { IfOk result (λ r. r.0.heap.config ≡ config_for domains minor_words pools most) }
        ensures none { IfOk result (λ r. r.1.items ≡ map (no_handles most) (fresh_seats r.0 0 domains)) }
    {
        let config = Config {
            domains,
            minor_words,
            pools,
            finals: most,
            ephes: 0,
        };
        let (seats, resting) = Seats::make(rt, alloc, config)?;
        let all = with_none(alloc, resting, most)?;
        Ok((seats, all))
    }

    /// Collects once more on each of these seats, which are all of the heap's, and ends it. Hands out the ended heap
    /// and the resources of each seat: to the handles of those that are open something led as the collection of their
    /// seat was answered. Fails for want of memory alone, and then the heap is given up. Where a seat is missing this
    /// waits without end.
    pub fn stop<R: Wait>(
        rt: &R,
        alloc: Global,
        seats: Seats,
        all: Vec<RestingHandles>,
    ) -> Result<(Ended, Vec<Vec<Resource>>), AllocError>
        requires here { AllHandlesOf seats all.items }
        requires some { 0 < length all.items }
        ensures sizes { IfOk result (λ r. r.0.sizes ≡ sizes_in seats.heap.config) }
        ensures legal { IfOk result (λ r. Legal r.0.sizes r.0.history) }
        ensures leaves { IfOk result (λ r. LeavesEach r.0.sizes r.0.history all.items (map (λ v. v.items) r.1.items)) }
    {
        let collected = Vec::with_capacity(alloc, all.len())?;
        let polled = Vec::with_capacity(alloc, all.len())?;
        let places = Vec::with_capacity(alloc, all.len())?;
        let lists = Vec::with_capacity(alloc, all.len())?;
        let all = perform_each(rt, &seats, all, collected, Command::FullMajor);
        let all = perform_each(rt, &seats, all, polled, Command::Poll);
        let (back, left) = take_apart(rt, &seats, all, places, lists);
        let ended = seats.stop(rt, alloc, back)?;
        Ok((ended, left))
    }
}

// Makes a command on each of these seats, which rest before and afterwards, in room that was taken before.
fn perform_each<R: Wait>(
    rt: &R,
    seats: &Seats,
    all: Vec<RestingHandles>,
    room: Vec<RestingHandles>,
    command: Command,
) -> Vec<RestingHandles>
    requires here { AllHandlesOf seats.now all.items }
    requires spare { IsSpare command }
    requires empty { room.items ≡ [] }
    requires room { length all.items ≤ vec_capacity room }
    ensures { EachDid command all.items result.items }
{
    let mut done = room;
    'each: for resting in all {
        let mut handles = resting.resume(rt, seats);
        handles.perform(rt, seats, command);
        handles.is_kept();
        done.push_reserved(handles.rest(rt, seats));
    }
    done
}

// Takes each of these seats up, and hands out the seats and the resources, in room that was taken before.
fn take_apart<R: Wait>(
    rt: &R,
    seats: &Seats,
    all: Vec<RestingHandles>,
    places: Vec<Seat>,
    lists: Vec<Vec<Resource>>,
) -> (Vec<Seat>, Vec<Vec<Resource>>)
    requires here { AllHandlesOf seats.now all.items }
    requires no_seats { places.items ≡ [] }
    requires places { length all.items ≤ vec_capacity places }
    requires no_lists { lists.items ≡ [] }
    requires lists { length all.items ≤ vec_capacity lists }
    ensures { PartsEach all.items result.0.items (map (λ v. v.items) result.1.items) }
{
    let mut back = places;
    let mut left = lists;
    'each: for resting in all {
        let handles = resting.resume(rt, seats);
        handles.is_kept();
        let Handles {
            seat,
            resources,
            ..
        } = handles;
        back.push_reserved(seat);
        left.push_reserved(resources);
    }
    (back, left)
}

//! Why a block is still there, as C asks it.
ghost use Rattle.std.specs.Prelude.{◌≡◌, ◌≢◌, ◌<◌};
ghost use Rattle.camlheap_c.specs.Asking.{AsksWhy, Copies, GoesAlong, Stops, TellsWay, Whys, label_of, stop_form};
ghost use Rattle.camlheap_c.specs.Exported.{RefusesClose};

use crate::codes::{AGAIN, DONE, MEMORY, NO_DOMAIN, NO_MORE, refusal_code};
use crate::handle::CamlheapDomain;
use model_core::label::Label;
use model_laws::reach::asking::{Reason, why};
use model_laws::reach::exploring::Stop;
use run_seats::shared::SharedRun;
use std::alloc::Global;

/// What leads to a block: a way, nothing, or no field; and the way's register, and how many fields it has.
#[repr(C)]
#[derive(Clone, Copy)]
pub struct CamlheapWay {
    pub kind: u32,
    pub register: u32,
    pub fields: usize,
}

// Why a search has stopped, as a number.
fn stop_code(stop: Stop) -> u32
    ensures { result ≡ stop_form stop }
{
    match stop {
        Stop::PutOff => AGAIN,
        Stop::Many => NO_MORE,
        Stop::Memory => MEMORY,
    }
}

// Copies the first of these fields, as many as there is room for.
fn copy_fields(fields: &[u16], room: &mut [u16])
    ensures copied { Copies fields.now room.old room.new }
{
    let count = fields.len().min(room.len());
    room[..count].copy_from_slice(&fields[..count]);
}

// What C reads of the answer.
fn tell(reason: &Reason, room: &mut [u16]) -> CamlheapWay
    ensures { TellsWay reason.now room.old room.new result }
{
    match reason {
        Reason::Way(way) => {
            copy_fields(&way.fields, room);
            CamlheapWay {
                kind: 0,
                register: way.register as u32,
                fields: way.fields.len(),
            }
        }
        Reason::Nothing => CamlheapWay {
            kind: 1,
            register: 0,
            fields: 0,
        },
        Reason::NoField => CamlheapWay {
            kind: 2,
            register: 0,
            fields: 0,
        },
    }
}

// Looks for a way to a block.
fn ask_why(
    alloc: Global,
    run: &mut SharedRun,
    target: Label,
    most: u32,
    way: &mut CamlheapWay,
    fields: &mut [u16],
) -> u32
    ensures why { result ≡ 0 → Whys run.old run.new target way.new fields.old fields.new }
    ensures refused { 16 < result → result < 24 → RefusesClose run.old result × (run.new ≡ run.old) }
    ensures goes_on { GoesAlong run.old run.new }
    ensures told { Stops result }
    ensures unread { result ≢ 0 → (way.new ≡ way.old) × (fields.new ≡ fields.old) }
{
    if let Err(refused) = run.may_close() {
        return refusal_code(refused);
    }
    match why(alloc, run, target, most) {
        Ok(reason) => {
            *way = tell(&reason, fields);
            DONE
        }
        Err(stop) => stop_code(stop),
    }
}

/// Looks for a way from registers 0 to 13 of a domain through fields to a block, by loads of this domain into registers 14
/// and 15. It looks into so many blocks at most. `DONE` and the answer; `NO_DOMAIN`; `CLOSED`; `BUSY`; `AGAIN` where a
/// pause is wanted or a finaliser waits: turn the domain, and ask anew; `NO_MORE` where there are more blocks; `MEMORY`.
/// Where the domain alone has made an entry meanwhile the answer is exact.
#[unsafe(no_mangle)]
pub extern "C" fn camlheap_why(
    alloc: Global,
    handle: &mut CamlheapDomain,
    maker: u32,
    serial: u32,
    most: u32,
    way: &mut CamlheapWay,
    fields: &mut [u16],
) -> u32
    ensures asks { AsksWhy handle.old handle.new (label_of maker serial) way.new fields.old fields.new result }
    ensures unread { result ≢ 0 → (way.new ≡ way.old) × (fields.new ≡ fields.old) }
{
    if !handle.is_full() {
        return NO_DOMAIN;
    }
    let run = handle.lend();
    let target = Label {
        domain: maker,
        serial,
    };
    ask_why(alloc, run, target, most, way, fields)
}

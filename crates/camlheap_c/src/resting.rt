//! Domains that rest, as C calls them: a thread that has other work puts its domain into a bed, and whoever waits in a
//! pause turns it there. Beds of one room know of each other, and a domain of any heap may rest in any of them.
ghost use Rattle.std.specs.Prelude.{◌≡◌, ◌≢◌, ◌↔◌, ◌⊎◌, ◌+◌, ◌<◌, IfErr, IfOk, false, true, None};
ghost use Rattle.run_seats.specs.Beds.Bedding.{IsSameBed, MakesNone, plain_bed};
ghost use Rattle.camlheap_c.specs.Resting.{AreFull, HoldsSame, HoldsSameBed, KeptOut, Leaves, MakesBed, NoneMade, Rests, Resumes, Shuts, first_bed, no_bed_form, unrested_form};

use crate::bed::CamlheapBed;
use crate::codes::{
    AGAIN, BED_EMPTY, BED_FULL, DONE, HAS_DOMAIN, MEMORY, NO_BED, NO_DOMAIN, NO_MORE, UNFIT,
    WAITING, refusal_code,
};
use crate::handle::CamlheapDomain;
use run_seats::shared::{NoBed, NotRested, RunBed};
use std::alloc::Global;

// Why a domain isn't put to rest, as a number.
fn unrested_code(why: NotRested) -> u32
    ensures { result ≡ unrested_form why }
{
    match why {
        NotRested::Refused(refused) => refusal_code(refused),
        NotRested::Taken => BED_FULL,
        NotRested::Blocked => AGAIN,
    }
}

// Why there is no further bed, as a number.
fn no_bed_code(why: NoBed) -> u32
    ensures { result ≡ no_bed_form why }
{
    match why {
        NoBed::NotFirst => UNFIT,
        NoBed::Full => NO_MORE,
        NoBed::Memory => MEMORY,
    }
}

// Has the bed in a handle, if there is one, give back what it keeps of others. Answers whether none is kept then.
fn gives_back(alloc: Global, bed: &mut CamlheapBed) -> bool
    ensures same { HoldsSameBed bed.old bed.new }
    ensures kept { result ≡ false → (bed.new.full ≡ true) × (bed.new.value.keeps ≡ true) }
    ensures given { result ≡ true → bed.new.full ≡ true → bed.new.value.keeps ≡ false }
{
    let Some(mut held) = bed.take(alloc) else {
        return true;
    };
    let given = held.gives_back();
    *bed = CamlheapBed::of(held);
    given
}

/// A bed in a room of its own. `DONE`; `MEMORY`; or `AGAIN`, where the handle holds a bed that couldn't put back a domain of
/// another. Else than with `DONE` nothing has changed. What the handle held before is freed with `DONE`.
#[unsafe(no_mangle)]
pub extern "C" fn camlheap_first_bed(alloc: Global, bed: &mut CamlheapBed) -> u32
    ensures made { result ≡ 0 → (bed.new.full ≡ true) × (bed.new.value ≡ first_bed) }
    ensures told { result ≢ 0 → (result ≡ 1) ⊎ (result ≡ 24) }
    ensures keeps { result ≡ 1 → (bed.new.full ≡ true) × (bed.new.value.keeps ≡ true) }
    ensures same { result ≢ 0 → HoldsSameBed bed.old bed.new }
{
    if !gives_back(alloc, bed) {
        return AGAIN;
    }
    let Ok(made) = RunBed::make(alloc) else {
        return MEMORY;
    };
    let Ok(boxed) = Box::new(alloc, made) else {
        return MEMORY;
    };
    bed.put(boxed);
    DONE
}

// Another bed of a room, in a box. The box is made first, around a bed that goes: a bed that was made has used up a place of
// its room.
fn another_boxed(alloc: Global, first: &mut RunBed) -> Result<Box<RunBed>, NoBed>
    ensures made { IfOk result (λ b. (b.value ≡ plain_bed) × (first.new ≡ record first.old { beds = first.old.beds + 1 })) }
    ensures may { IfOk result (λ _. (first.old.makes ≡ true) × (first.old.beds < 64)) }
    ensures why { IfErr result (MakesNone first.old) }
    ensures same { IfErr result (λ _. first.new ≡ first.old) }
{
    first.may_make()?;
    let Ok(own) = RunBed::make(alloc) else {
        return Err(NoBed::Memory);
    };
    let Ok(mut boxed) = Box::new(alloc, own) else {
        return Err(NoBed::Memory);
    };
    let made = first.another()?;
    let _own = Box::replace(&mut boxed, made);
    Ok(boxed)
}

/// Another bed in the room of the first, which [`camlheap_first_bed`] made. `DONE`; `NO_BED`; `UNFIT` where that isn't the
/// first; `NO_MORE` where there are 64; `MEMORY`; or `AGAIN`, where the second handle holds a bed that couldn't put back a domain
/// of another. Else than with `DONE` nothing has changed. What the second handle held before is freed with `DONE`.
#[unsafe(no_mangle)]
pub extern "C" fn camlheap_another_bed(
    alloc: Global,
    first: &mut CamlheapBed,
    bed: &mut CamlheapBed,
) -> u32
    ensures kept { first.new.full ≡ first.old.full }
    ensures none { (first.old.full ≡ false) ↔ (result ≡ 27) }
    ensures made { first.old.full ≡ true → result ≡ 0 → MakesBed first.old first.new bed.new }
    ensures not_first { first.old.full ≡ true → (result ≡ 19) ↔ (first.old.value.makes ≡ false) }
    ensures same { result ≢ 0 → HoldsSameBed bed.old bed.new }
    ensures same_first { first.old.full ≡ true → result ≢ 0 → first.new.value ≡ first.old.value }
    ensures why { first.old.full ≡ true → result ≢ 0 → result ≢ 1 → NoneMade first.old.value result }
    ensures keeps { result ≡ 1 → (bed.new.full ≡ true) × (bed.new.value.keeps ≡ true) }
{
    let Some(mut held) = first.take(alloc) else {
        return NO_BED;
    };
    if let Err(why) = held.may_make() {
        *first = CamlheapBed::of(held);
        return no_bed_code(why);
    }
    if !gives_back(alloc, bed) {
        *first = CamlheapBed::of(held);
        return AGAIN;
    }
    let made = another_boxed(alloc, &mut held);
    *first = CamlheapBed::of(held);
    match made {
        Ok(boxed) => {
            bed.put(boxed);
            DONE
        }
        Err(why) => no_bed_code(why),
    }
}

/// Puts a domain to rest. The handle is empty then, and the bed has the domain. `DONE`; `NO_BED`; `NO_DOMAIN`; `CLOSED`;
/// `BUSY`, where the last command isn't made yet; `BED_FULL`; or `AGAIN`, where another thread is in the way. Else than
/// with `DONE` nothing has changed.
#[unsafe(no_mangle)]
pub extern "C" fn camlheap_rest(
    alloc: Global,
    domain: &mut CamlheapDomain,
    bed: &mut CamlheapBed,
) -> u32
    ensures kept { bed.new.full ≡ bed.old.full }
    ensures no_bed { (bed.old.full ≡ false) ↔ (result ≡ 27) }
    ensures no_domain { bed.old.full ≡ true → (domain.old.full ≡ false) ↔ (result ≡ 16) }
    ensures rests { result ≡ 0 → Rests domain.old domain.new bed.old bed.new }
    ensures why { AreFull domain.old bed.old → result ≢ 0 → KeptOut domain.old.value bed.old.value result }
    ensures same { result ≢ 0 → HoldsSame domain.old domain.new }
    ensures same_bed { result ≢ 0 → bed.old.full ≡ true → IsSameBed bed.old.value bed.new.value }
{
    let Some(mut held) = bed.take(alloc) else {
        return NO_BED;
    };
    let Some(run) = domain.take(alloc) else {
        *bed = CamlheapBed::of(held);
        return NO_DOMAIN;
    };
    let rested = held.rest(run);
    *bed = CamlheapBed::of(held);
    match rested {
        Ok(()) => DONE,
        Err((run, why)) => {
            *domain = CamlheapDomain::of(run);
            unrested_code(why)
        }
    }
}

/// Takes the domain back that rests in a bed, into a handle that holds none. `DONE`; `NO_BED`; `HAS_DOMAIN`; `BED_EMPTY`;
/// or `AGAIN`, where another thread turns it at the moment or is in the way. Else than with `DONE` nothing has changed.
#[unsafe(no_mangle)]
pub extern "C" fn camlheap_resume(
    alloc: Global,
    domain: &mut CamlheapDomain,
    bed: &mut CamlheapBed,
) -> u32
    ensures kept { bed.new.full ≡ bed.old.full }
    ensures has_domain { (domain.old.full ≡ true) ↔ (result ≡ 29) }
    ensures no_bed { domain.old.full ≡ false → (bed.old.full ≡ false) ↔ (result ≡ 27) }
    ensures empty { domain.old.full ≡ false → bed.old.full ≡ true → (bed.old.value.rests ≡ None) ↔ (result ≡ 30) }
    ensures resumes { result ≡ 0 → Resumes domain.new bed.old bed.new }
    ensures same { result ≢ 0 → HoldsSame domain.old domain.new }
    ensures same_bed { result ≢ 0 → bed.old.full ≡ true → IsSameBed bed.old.value bed.new.value }
    ensures told { result ≢ 0 → result ≢ 1 → (result ≡ 27) ⊎ ((result ≡ 29) ⊎ (result ≡ 30)) }
{
    if let Some(run) = domain.take(alloc) {
        *domain = CamlheapDomain::of(run);
        return HAS_DOMAIN;
    }
    let Some(mut held) = bed.take(alloc) else {
        return NO_BED;
    };
    let is_free = held.is_free();
    let resumed = held.resume();
    *bed = CamlheapBed::of(held);
    match resumed {
        Some(run) => {
            *domain = CamlheapDomain::of(run);
            DONE
        }
        None if is_free => BED_EMPTY,
        None => AGAIN,
    }
}

/// One turn of a domain that rests in the room of this bed, if one can be had at once: `AGAIN` where it did something,
/// `WAITING` where not, `NO_BED`.
#[unsafe(no_mangle)]
pub extern "C" fn camlheap_attend(alloc: Global, bed: &mut CamlheapBed) -> u32
    ensures kept { bed.new.full ≡ bed.old.full }
    ensures none { (bed.old.full ≡ false) ↔ (result ≡ 27) }
    ensures same { bed.old.full ≡ true → IsSameBed bed.old.value bed.new.value }
    ensures told { bed.old.full ≡ true → (result ≡ 1) ⊎ (result ≡ 2) }
{
    let Some(mut held) = bed.take(alloc) else {
        return NO_BED;
    };
    let went = held.attend();
    *bed = CamlheapBed::of(held);
    if went { AGAIN } else { WAITING }
}

// Puts the domain of a handle into a bed, where it is left to whoever has another bed of the room.
fn leave_in(alloc: Global, domain: &mut CamlheapDomain, bed: &mut CamlheapBed) -> u32
    ensures kept { bed.new.full ≡ bed.old.full }
    ensures no_bed { (bed.old.full ≡ false) ↔ (result ≡ 27) }
    ensures no_domain { bed.old.full ≡ true → (domain.old.full ≡ false) ↔ (result ≡ 16) }
    ensures leaves { result ≡ 0 → Leaves domain.old domain.new bed.old bed.new }
    ensures taken { AreFull domain.old bed.old → (result ≡ 28) ↔ (bed.old.value.rests ≢ None) }
    ensures same { result ≢ 0 → result ≢ 1 → HoldsSame domain.old domain.new }
    ensures shut { result ≡ 1 → Shuts domain.old domain.new }
    ensures same_bed { result ≢ 0 → bed.old.full ≡ true → IsSameBed bed.old.value bed.new.value }
{
    let Some(mut held) = bed.take(alloc) else {
        return NO_BED;
    };
    let Some(run) = domain.take(alloc) else {
        *bed = CamlheapBed::of(held);
        return NO_DOMAIN;
    };
    let left = held.leave(run);
    *bed = CamlheapBed::of(held);
    match left {
        Ok(()) => DONE,
        Err((run, why)) => {
            *domain = CamlheapDomain::of(run);
            if why == NotRested::Taken {
                BED_FULL
            } else {
                AGAIN
            }
        }
    }
}

/// A domain whose thread goes away: it is closed, at once or behind the command that it has to make, and put to rest in a bed,
/// which is freed. Whoever has another bed of its room turns it to its end. Both handles are empty then. `DONE`; `NO_BED`;
/// `NO_DOMAIN`; `BED_FULL`; or `AGAIN`, where another thread is in the way: then both hold what they held, but for that the domain
/// is closed. With the others nothing has changed.
#[unsafe(no_mangle)]
pub extern "C" fn camlheap_leave(
    alloc: Global,
    domain: &mut CamlheapDomain,
    bed: &mut CamlheapBed,
) -> u32
    ensures no_bed { (bed.old.full ≡ false) ↔ (result ≡ 27) }
    ensures no_domain { bed.old.full ≡ true → (domain.old.full ≡ false) ↔ (result ≡ 16) }
    ensures taken { AreFull domain.old bed.old → (result ≡ 28) ↔ (bed.old.value.rests ≢ None) }
    ensures left { result ≡ 0 → (domain.new.full ≡ false) × (bed.new.full ≡ false) }
    ensures kept { result ≢ 0 → bed.new.full ≡ bed.old.full }
    ensures same { result ≢ 0 → result ≢ 1 → HoldsSame domain.old domain.new }
    ensures shut { result ≡ 1 → Shuts domain.old domain.new }
    ensures same_bed { result ≢ 0 → bed.old.full ≡ true → IsSameBed bed.old.value bed.new.value }
{
    let told = leave_in(alloc, domain, bed);
    if told == DONE {
        let _held = bed.take(alloc);
    }
    told
}

/// Frees a bed, and the room with the last of them. Who rests there can't be taken back then. `DONE`; or `AGAIN`, where it keeps
/// a domain of another bed that it couldn't put back, since other threads were in the way: then nothing has changed.
#[unsafe(no_mangle)]
pub extern "C" fn camlheap_free_bed(alloc: Global, bed: &mut CamlheapBed) -> u32
    ensures gone { result ≡ 0 → bed.new.full ≡ false }
    ensures told { result ≢ 0 → result ≡ 1 }
    ensures keeps { result ≢ 0 → (bed.new.full ≡ true) × (bed.new.value.keeps ≡ true) }
    ensures same { result ≢ 0 → HoldsSameBed bed.old bed.new }
{
    if !gives_back(alloc, bed) {
        return AGAIN;
    }
    let _held = bed.take(alloc);
    DONE
}

//! What the calls answer, as numbers. `library/include/camlheap.h` has them too.
ghost use Rattle.std.specs.Prelude.{◌≡◌, ◌+◌, ◌<◌};
ghost use Rattle.camlheap_c.specs.Forms.{came_form, refused_form};

use run_seats::shared::Refused;
use run_turns::singly::{Came, Refusal};

pub(crate) const DONE: u32 = 0;

pub(crate) const AGAIN: u32 = 1;

pub(crate) const WAITING: u32 = 2;

pub(crate) const HUNGRY: u32 = 3;

pub(crate) const ENDED: u32 = 4;

pub(crate) const NO_DOMAIN: u32 = 16;

pub(crate) const CLOSED: u32 = 17;

pub(crate) const BUSY: u32 = 18;

pub(crate) const UNFIT: u32 = 19;

pub(crate) const NO_EPHEMERON: u32 = 20;

pub(crate) const NO_FINALISER: u32 = 21;

pub(crate) const NO_LABEL: u32 = 22;

pub(crate) const NO_REGISTER: u32 = 23;

pub(crate) const MEMORY: u32 = 24;

pub(crate) const TOO_FEW_HANDLES: u32 = 25;

pub(crate) const NO_MORE: u32 = 26;

pub(crate) const NO_BED: u32 = 27;

pub(crate) const BED_FULL: u32 = 28;

pub(crate) const HAS_DOMAIN: u32 = 29;

pub(crate) const BED_EMPTY: u32 = 30;

// With the number of the field of the configuration that is outside its limit added.
pub(crate) const OUTSIDE: u32 = 32;

// The first field of the configuration outside its limit.
pub(crate) fn outside_code(field: u32) -> u32
    requires { field < 6 }
    ensures { result ≡ 32 + field }
{
    OUTSIDE + field
}

// Why a command isn't taken.
#[inline(always)]
pub(crate) fn refusal_code(refused: Refused) -> u32
    ensures { result ≡ refused_form refused }
{
    match refused {
        Refused::Closed => CLOSED,
        Refused::Busy => BUSY,
        Refused::Unfit(Refusal::Shape) => UNFIT,
        Refused::Unfit(Refusal::NoEphemeron) => NO_EPHEMERON,
        Refused::Unfit(Refusal::NoFinaliser) => NO_FINALISER,
        Refused::Unfit(Refusal::NoLabel) => NO_LABEL,
    }
}

// How far a turn came.
pub(crate) fn turn_code(came: Came) -> u32
    ensures { result ≡ came_form came }
{
    match came {
        Came::On => AGAIN,
        Came::Nowhere => WAITING,
        Came::Done => HUNGRY,
        Came::Ended => ENDED,
    }
}

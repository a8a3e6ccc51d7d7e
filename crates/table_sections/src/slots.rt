// Where the slots are.
ghost use Rattle.std.specs.Prelude.{◌≡◌, ◌<◌};
ghost use Rattle.table_sections.specs.Slots.{slot_ephe as slot_ephe_of, slot_key as slot_key_of};

// The registers of the ephemerons that hold them.
const EPHEMERONS: [u8; 3] = [7, 12, 13];

// How many of them each holds, behind its first key.
const EACH: u8 = 6;

// The register of the ephemeron that holds a slot.
pub(crate) fn slot_ephe(slot: u8) -> u8
    requires slot { slot < 16 }
    ensures is { result ≡ slot_ephe_of slot }
    ensures few { result < 16 }
{
    EPHEMERONS[usize::from(slot / EACH)]
}

// The key of it that the slot is.
pub(crate) fn slot_key(slot: u8) -> u16
    ensures { result ≡ slot_key_of slot }
{
    u16::from(slot % EACH) + 1
}

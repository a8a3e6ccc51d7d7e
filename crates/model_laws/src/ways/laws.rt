//! Laws of ways through a heap. Each function's contract is one law, and it does nothing else.
ghost use Rattle.model_laws.specs.Ways.Reached.{LedIsReached, UnledIsUnreached};

/// Whatever the history, a block to which a way leads from a register of a domain through fields is reachable.
pub fn led_is_reached()
    ensures { LedIsReached }
{}

/// Where no way from registers 0 to 13 of a domain leads to a block, nor to any ephemeron, it isn't reachable from these
/// registers, by ephemerons neither.
pub fn unled_is_unreached()
    ensures { UnledIsUnreached }
{}

//! Laws of ledgers. Each function's contract is one law, and it does nothing else.
ghost use Rattle.run_ledgers.specs.Ledgers.{CommandsAdd, FinalisersAdd, LedgersFollow, LedgersStand, NowAdds, OnlyTakesChange, RanTaken, RanWaits, TurnsAdd};

/// A turn adds the command that it made with its reply, or the reply of one finaliser, or nothing; and which of these the run itself tells.
pub fn turns_add()
    ensures { TurnsAdd }
{}

/// A command that was awaited adds itself with its reply, and before that the replies of the finalisers that ran.
pub fn commands_add()
    ensures { CommandsAdd }
{}

/// A domain that waits for its next command, or rests, adds the replies of the finalisers that ran.
pub fn finalisers_add()
    ensures { FinalisersAdd }
{}

/// A call's ledger comes behind what stood before.
pub fn ledgers_follow()
    ensures { LedgersFollow }
{}

/// What stands in a domain's front stands in each history that begins with it and has no other entry of it.
pub fn ledgers_stand()
    ensures { LedgersStand }
{}

/// A command that is made at once adds itself with its reply, and one that is put off adds nothing.
pub fn now_adds()
    ensures { NowAdds }
{}

/// What was taken of the replies of finalisers and what waits are together the ledger's: what a call adds to the ledger waits behind what did.
pub fn ran_waits()
    ensures { RanWaits }
{}

/// So they are where the oldest that waits is taken.
pub fn ran_taken()
    ensures { RanTaken }
{}

/// No call of a run but `take_ran` changes what waits to be taken of the replies of finalisers but by adding at its end, and it adds those of the finalisers that ran in it, as its front tells them.
pub fn only_takes_change()
    ensures { OnlyTakesChange }
{}

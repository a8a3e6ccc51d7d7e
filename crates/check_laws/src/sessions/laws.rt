//! Laws of whole sessions. Each function's contract is one law, and it does nothing else.
ghost use Rattle.check_laws.specs.Sessions.Sessions.{SessionsMakeTheirCalls};

/// The history of a session that has ended has the commands that were handed in, each once and in order, and the replies that
/// its calls gave, with those of the finalisers that ran before each of them and at the end.
pub fn sessions_make_their_calls()
    ensures { SessionsMakeTheirCalls }
{}

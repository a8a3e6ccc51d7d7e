//! What still holds under a profile. Each function's contract is one law, and it does nothing else.
ghost use Rattle.judge_profiles.specs.Laws.{ReadingLaw, StrictLaw, WeakerLaw};

/// Under each profile all is legal that is legal under none: what a history explains, a reading explains that shows nothing otherwise.
pub fn relaxed_is_weaker()
    ensures { WeakerLaw }
{}

/// Under the strict profile nothing is shown otherwise: what each domain shows is what it does.
pub fn strict_shows_all()
    ensures { StrictLaw }
{}

/// Under each profile what a reading explains was read from a legal history. So all that is said of legal histories holds of it: what a
/// collection took is never seen again, each registration runs once at most, what a register leads to stays, and stores come in one
/// order.
pub fn readings_are_legal()
    ensures { ReadingLaw }
{}

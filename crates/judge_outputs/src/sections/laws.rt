//! The machine of two domains on a small text. It does nothing when it runs.
ghost use Rattle.judge_outputs.specs.Sections.Rows.{shared_turns};
ghost use Rattle.judge_outputs.specs.Sections.Turns.{TurnsAnswered};

/// The machine of two domains may answer so: a key that one domain has let go keeps its binding and its slot while a register of
/// the other holds it, and goes from both behind that.
pub fn rows()
    ensures { TurnsAnswered 2 shared_turns }
{}

//! The laws of replays as text.
ghost use Rattle.std.specs.Prelude.{◌≡◌, ◌⊎◌, ℕ, ◌<◌, ◌^◌, List};
ghost use Rattle.text_script.specs.declared.schedule.text.replay.ReplayFault as declared_fault;
ghost use Rattle.text_script.specs.Schedule.Text.Replays.{HasFault, Replayed, SpellsReplay};

/// No bytes spell two replays, whatever the pools of the heaps that they are read for. It does nothing when it runs.
pub fn one_replay()
    ensures { (domains pools others : ℕ) (a b : Replayed) (bytes : List ℕ) → domains < 2 ^ 32
        → SpellsReplay domains pools a bytes → SpellsReplay domains others b bytes → a ≡ b }
{}

/// All bytes spell a replay, or have a first fault, which is no want of memory. So what a reader is to answer of bytes is
/// said of all. It does nothing when it runs.
pub fn spelled_or_faulty()
    ensures { (domains pools : ℕ) (bytes : List ℕ) → domains < 2 ^ 32
        → ((replay : Replayed) × SpellsReplay domains pools replay bytes) ⊎ ((fault : declared_fault.ReplayFault) × HasFault domains pools bytes fault) }
{}

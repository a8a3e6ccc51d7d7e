//! Laws of scripts of version 3. Each function's contract is one law, and it does nothing else.
ghost use Rattle.std.specs.Prelude.{◌≡◌, ℕ, List};
ghost use Rattle.model_core.specs.declared.command.Command.{Command};
ghost use Rattle.text_script.specs.Script.{Scripted};
ghost use Rattle.text_script.specs.Spawning.{is_spawned};
ghost use Rattle.model_traces.specs.Spawns.Expansion.{IsFittingScript, is_spawned as is_spawned_in_law};
ghost use Rattle.text_script.specs.Spawned.Reads.{IsRead, ScriptsJoin, ScriptsPrintOnce, FrontsTell};

/// Each script of version 3 that is read names registers 0 to 13 alone, and each of its spawns and joins
/// names another section.
pub fn spawns_fit()
    ensures fits { (domains : ℕ) (script : Scripted) → IsRead domains script → IsFittingScript script.sections }
    // Whether a spawn names a section is asked in one way, by who reads and by the laws.
    ensures spawned { (sections : List (List Command)) (d : ℕ) → is_spawned sections d ≡ is_spawned_in_law sections d }
{}

/// In each run of a script of version 3, each command of a section that was spawned stands behind its spawn, and before
/// each load by which a join of it answers. That load gives what the section's last `result` stored, or 0 where
/// none did.
pub fn scripts_join()
    ensures { ScriptsJoin }
{}

/// In each run of a script of version 3, a section prints one reply for each of its commands, and none at its start and
/// at its end.
pub fn scripts_print_once()
    ensures { ScriptsPrintOnce }
{}

/// Where each domain's part of a history begins with the prelude and the domain has made its section behind it, the
/// history is a run of the script, and each section prints what it prints in its domain's part.
pub fn fronts_tell()
    ensures { FrontsTell }
{}

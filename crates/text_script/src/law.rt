//! The laws of scripts as text.
ghost use Rattle.std.specs.Prelude.{◌≡◌, ◌≢◌, ◌⊎◌, ℕ, ◌≤◌, ◌<◌, ◌^◌, List, length, take, map, pos, sum_by, Some};
ghost use Rattle.text_script.specs.declared.fault.ScriptFault as declared_fault;
ghost use Rattle.text_script.specs.declared.fault.ScriptFault.TheVariants.{Memory};
ghost use Rattle.text_script.specs.declared.version.Version.{Version};
ghost use Rattle.text_script.specs.Script.{Scripted};
ghost use Rattle.model_core.specs.declared.command.Command.{Command};
ghost use Rattle.text_script.specs.declared.version.Version.TheVariants.{Three};
ghost use Rattle.text_script.specs.Forms.{version_number};
ghost use Rattle.text_script.specs.Sections.{AreSectionTexts, text_with};
ghost use Rattle.text_script.specs.Spelling.{spelling, with_empty, Spells};
ghost use Rattle.text_script.specs.Faults.{first_fault};

/// A script that is printed gives its bytes again, up to the last section that is written, and no
/// bytes are the spelling of two scripts. It does nothing when it runs.
pub fn one_spelling()
    ensures printed_again { (newest : Version) (domains : ℕ) (script : Scripted) (bytes : List ℕ) → Spells newest domains script bytes
        → (written : ℕ) × (written ≤ length script.sections) × (bytes ≡ spelling script.version (take written script.sections)) }
    ensures one_script { (newest : Version) (domains : ℕ) (a b : Scripted) (bytes : List ℕ) → domains < 2 ^ 32
        → Spells newest domains a bytes → Spells newest domains b bytes → a ≡ b }
{}

/// All bytes are the spelling of a script, or have a first fault, which is no want of memory. So what a reader
/// is to answer of bytes is said of all. It does nothing when it runs.
pub fn spelled_or_faulty()
    ensures { (newest : Version) (domains : ℕ) (bytes : List ℕ) → domains < 2 ^ 32
        → ((script : Scripted) × Spells newest domains script bytes)
        ⊎ ((fault : declared_fault.ScriptFault) × (fault ≢ Memory) × (first_fault newest domains bytes ≡ Some fault)) }
{}

/// Sections that are each read alone make the script whose text they are behind their headings, unless its sections
/// begin by spawns. It does nothing when it runs.
pub fn sections_join()
    ensures { (newest version : Version) (domains : ℕ) (texts : List (List ℕ)) (sections : List (List Command)) → version ≢ Three → version_number version ≤ version_number newest
        → AreSectionTexts version domains texts sections → length sections ≤ domains → sum_by length sections ≤ 200000 → length (text_with version texts) ≤ 16777216
        → Spells newest domains (record { version = version; sections = with_empty domains sections }) (text_with version texts) }
{}

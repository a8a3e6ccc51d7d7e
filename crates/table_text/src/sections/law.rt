//! The laws of the texts of tables for several domains.
ghost use Rattle.std.specs.Prelude.{◌≡◌, ◌≢◌, ◌⊎◌, ◌<◌, ◌^◌, ℕ, List, None, Some};
ghost use Rattle.text_script.specs.declared.fault.ScriptFault as declared_fault;
ghost use Rattle.text_script.specs.declared.fault.ScriptFault.TheVariants.{Memory};
ghost use Rattle.table_text.specs.Sections.Spelling.{Sections, SpellsSections};
ghost use Rattle.table_text.specs.Sections.Faults.{first_sections_fault};

/// No bytes are the spelling of two texts with sections, and what is spelled has no fault. It does nothing when it runs.
pub fn sections_are_spelled_once()
    ensures one_text { (domains : ℕ) (a b : Sections) (bytes : List ℕ) → domains < 2 ^ 32
        → SpellsSections domains a bytes → SpellsSections domains b bytes → a ≡ b }
    ensures no_fault { (domains : ℕ) (a : Sections) (bytes : List ℕ) → domains < 2 ^ 32
        → SpellsSections domains a bytes → first_sections_fault domains bytes ≡ None }
{}

/// All bytes are the spelling of such a text, or have a first fault, which is no want of memory. It does nothing when it
/// runs.
pub fn sections_are_spelled_or_faulty()
    ensures { (domains : ℕ) (bytes : List ℕ) → domains < 2 ^ 32
        → ((sections : Sections) × SpellsSections domains sections bytes)
        ⊎ ((fault : declared_fault.ScriptFault) × (fault ≢ Memory) × (first_sections_fault domains bytes ≡ Some fault)) }
{}

//! The laws of the texts of tables.
ghost use Rattle.std.specs.Prelude.{◌≡◌, ◌≢◌, ◌⊎◌, ℕ, List, None, Some};
ghost use Rattle.text_script.specs.declared.fault.ScriptFault as declared_fault;
ghost use Rattle.text_script.specs.declared.fault.ScriptFault.TheVariants.{Memory};
ghost use Rattle.table_text.specs.Texts.{Text};
ghost use Rattle.table_text.specs.Spelling.{Spells};
ghost use Rattle.table_text.specs.Faults.{first_fault};

/// No bytes are the spelling of two texts, and what is spelled has no fault. It does nothing when it runs.
pub fn one_spelling()
    ensures one_text { (a b : Text) (bytes : List ℕ) → Spells a bytes → Spells b bytes → a ≡ b }
    ensures no_fault { (a : Text) (bytes : List ℕ) → Spells a bytes → first_fault bytes ≡ None }
{}

/// All bytes are the spelling of a table's text, or have a first fault, which is no want of memory. So what a reader is to
/// answer of bytes is said of all. It does nothing when it runs.
pub fn spelled_or_faulty()
    ensures { (bytes : List ℕ) → ((text : Text) × Spells text bytes)
        ⊎ ((fault : declared_fault.ScriptFault) × (fault ≢ Memory) × (first_fault bytes ≡ Some fault)) }
{}

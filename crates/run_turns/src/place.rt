//! How far a run has come in its section.

/// Where a run is in its section of a script, between two turns.
#[derive(Clone, Copy, Debug, PartialEq, Eq)]
pub enum Place {
    /// Its commands alone are to be made: no spawn begins them, and no join waits for their end. So it is
    /// with each run whose commands are no section of a script with spawns.
    AsEver,
    /// A spawn begins its section, and it hasn't seen that yet.
    Before,
    /// It has seen that, and hasn't told its end.
    Within,
    /// It has told its end.
    Behind,
}

//! What sections that spawn and join one another rely on: what a spawn passes, what their commands print, what one sees of
//! another's writes, and that they never all wait.
pub mod laws;

//! What a script prints under a schedule: the scheduled history, played on the slow heap, and where an output differs from it.
mod compare;
mod keys;
mod lasts;
mod places;
mod queues;
mod run;
mod text;
mod turns;

pub use compare::first_difference;
pub use text::scheduled_text;
pub use turns::scheduled_history;

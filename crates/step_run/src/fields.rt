//! The step calls of a running domain: each makes one step on the table of a shared heap, and the
//! changes of the token that it was given. docs/RULE.md says how to add one.
mod loading;
mod shortage;
mod storing;
mod ticking;

pub use loading::{field_load, head_load, label_load};
pub use shortage::short_load;
pub use storing::{Storing, field_store};
pub use ticking::tick;

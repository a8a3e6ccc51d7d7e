//! What leads to a block: a search from the registers of a domain through the fields of blocks, by loads of that domain.
pub mod asking;
pub mod exploring;
pub mod seen;
pub mod walker;

//! What the clauses of the top call give together with the laws of histories.
pub mod laws;

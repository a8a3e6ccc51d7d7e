//! Laws of pauses: which kinds of phases two domains of one pause know, and how many
//! phases are left of a pause.

//! Entries by which a collection begins, comes from one part to the next, or ends: what is said of a domain's front that grows.

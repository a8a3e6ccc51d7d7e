//! The shared heap: one table of words under one rule, which keeps a legal history that the words
//! stand for. docs/HEAP.md draws the words, and docs/RULE.md explains the rule.
#![tactic(auto)]

mod change;
mod config;
mod domain;
mod heap;
mod layout;
mod phase;
mod raw;
mod rule;
mod together;
mod view;

pub use change::{Change, Item, Part, Reading, make_changes, read_as};
pub use config::{Config, StartFault};
pub use domain::Domain;
pub use heap::{Ended, Heap};
pub use layout::{
    BARRIER, CHANGED, COLOURS, CURSOR, ENDED, LISTED, LIVE_BLOCKS, LIVE_WORDS, PLAN, WANT,
};
pub use phase::{Kind, Note, Progress, Stage};
pub use raw::{Changing, Leaving, Writing, raw_add, raw_exchange, raw_load, raw_or, raw_store};
pub use rule::{Told, ToldAll};
pub use together::raw_load_all;
pub use view::{
    Copied, Copying, DomainView, Finalisers, Form, FoundHead, Held, Hunt, Listing, Met, Owing, Own,
    OwnPool, Reaping, Registered, RegisteredLast, Scan, Search, Seen, Share, Spot, Swept, View,
    Waiting,
};

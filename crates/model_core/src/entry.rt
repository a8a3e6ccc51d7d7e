//! The entries of a history.
use crate::command::Command;
use crate::label::Label;
use crate::sequence::Sequence;

/// Places in a list, counted from 0.
pub type Places = Sequence<u32>;

/// One entry of a history: a domain's command, its end, a finaliser that it runs, or a step of the collector.
///
/// A collection is `Cut`, any number of `Queue`, `Seal`, any number of `Wipe` and `Last`, and `Done`. A complete one
/// has `Collected` before `Done`. From `Cut` to `Done` no domain makes an entry, except `full_major` after
/// `Collected`.
#[derive(Drop)]
pub enum Entry {
    /// A domain carries out a command: it changes the graph and the domain as the command says, and no queue. Its queue
    /// is empty then; for `full_major` it is enough that the domain's last entry left it empty.
    Command {
        domain: u32,
        command: Command,
        /// Whether the reply is `Full`, and no block is made. Only an allocation may have it, after a complete
        /// collection since the domain's last command, and where so many blocks are kept that the pools may be used up.
        full: bool,
    },
    /// A domain's trace ends: its registers hold nothing from then on, and its registrations are dropped and never run.
    /// Its queue is empty then. The graph stays.
    End {
        domain: u32,
    },
    /// A collection stops the domains, and notes each domain's queue as it is. The graph and the queues stay.
    Cut,
    /// Registrations of `finalise` move to the end of their domain's queue, the greatest place first. Neither the
    /// registers nor the queues noted at the cut reach their values. The graph stays.
    Queue {
        domain: u32,
        /// At least one, rising: places in the domain's list of registrations of `finalise`.
        places: Places,
    },
    /// The collection has queued what it queues of `finalise`, and turns to keys and to `finalise_last`. The graph and
    /// the queues stay.
    Seal,
    /// Keys of an ephemeron are emptied, and its data with them, since neither the registers nor the queues nor the
    /// waiting registrations of `finalise` reach the keys. The queues stay.
    Wipe {
        /// The ephemeron.
        label: Label,
        /// At least one, rising: places of full keys.
        keys: Places,
    },
    /// A registration of `finalise_last` moves to the end of its domain's queue: its value is gone, as a key of `Wipe`
    /// is, and no ephemeron that isn't gone itself holds it. The graph stays.
    Last {
        domain: u32,
        /// The place in the domain's list of registrations of `finalise_last`.
        place: u32,
    },
    /// The collection is complete: no key of a reachable ephemeron is left to empty, and no finaliser to queue. From
    /// here on `full_major` may be answered. The graph and the queues stay.
    Collected,
    /// The collection is over, complete or not, and the domains go on. The graph and the queues stay.
    Done,
    /// A domain runs the first finaliser of its queue, which leaves the queue. One of `finalise` puts its block into
    /// the register that it was registered with. The graph stays.
    Ran {
        domain: u32,
    },
}

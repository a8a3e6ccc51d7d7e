//! What a seat at the table knows. No value of `View` is ever made: it exists in contracts alone.
ghost use Rattle.std.specs.Prelude.{◌≡◌};
ghost use Rattle.heap_rule.specs.Pools.{freed_at};

use crate::config::Config;
use crate::phase::{Note, Progress, Stage};
use heap_words::classes::CLASS_COUNT;
use heap_words::remembered::{BoundedList, BoundedQueue, Remembered};
use heap_words::{Colours, Value};
use model_core::entry::Entry;
use model_core::label::Label;
use std::collections::LinkedList;

/// How far a domain is in taking a free block of the pools.
pub enum Hunt {
    /// It takes none.
    Rests,
    /// It knows how many pools are listed.
    Counts {
        listed: u64,
    },
    /// It has seen that a pool is to be had, and may ask for one.
    Asks {
        listed: u64,
    },
    /// It drew the pool at this place of the list, whose owner word still says nobody, and made so
    /// many of its block starts Free.
    Draws {
        place: u64,
        pool: u32,
        class: u32,
        cleared: u32,
    },
    /// This pool is its own, for blocks of this class.
    Walks {
        pool: u32,
        class: u32,
    },
    /// This place of an own pool is free. Behind the place of its head these words are written.
    Fills {
        pool: u32,
        class: u32,
        slot: u32,
        made: LinkedList<u64>,
    },
    /// The prepared place at this address has this label.
    Labels {
        address: u32,
        label: u64,
    },
    /// It has this label and this head.
    Heads {
        address: u32,
        label: u64,
        head: u64,
    },
}

/// A place of a pool: the slot-th of its class. It stands before each place of later pools.
#[derive(Clone, Copy, Debug, PartialEq, Eq)]
pub struct Spot {
    pub pool: u32,
    pub slot: u32,
}

/// How far a domain has looked for a free place of a class: no place of its own pools of the class is free before this one, and
/// where this is the `only` pool, none is in the pools behind it.
#[derive(Clone, Copy, Debug, PartialEq, Eq)]
pub struct Search {
    pub pool: u32,
    pub slot: u32,
    pub only: bool,
}

impl Search {
    /// How far it has looked once this place of the class is free again: to this one, if that is earlier. Where the place lies
    /// in another pool, the search's is no longer the only one.
    pub fn freed(self, pool: u32, slot: u32) -> Search
        ensures { result ≡ freed_at pool slot self }
    {
        let only = self.only && self.pool == pool;
        if pool < self.pool || (pool == self.pool && slot < self.slot) {
            Search { pool, slot, only }
        } else {
            Search {
                pool: self.pool,
                slot: self.slot,
                only,
            }
        }
    }
}

/// A place of a pool, for blocks of a class.
#[derive(Clone, Copy, Debug, PartialEq, Eq)]
pub struct Spare {
    pub pool: u32,
    pub class: u32,
    pub slot: u32,
}

/// How far a domain has swept since it last arrived before the colours were rotated: so many of its
/// listed ephemerons, and each own place before the spot, hold no garbage. No own pool is left to sweep
/// where the spot is behind the last pool.
#[derive(Clone, Copy, Debug, PartialEq, Eq)]
pub struct Swept {
    pub listed: usize,
    pub spot: Spot,
    /// All own pools lie below this one, so walks over own pools end here.
    pub top: u32,
}

/// How far a domain is in sweeping a pool.
pub enum Reaping {
    /// It is at none.
    Outside,
    /// This pool is its own, for blocks of this class.
    Inside { pool: u32, class: u32 },
    /// So it is, and garbage lies at this place of it.
    AtGarbage { pool: u32, class: u32, slot: u32 },
}

/// What a domain knows of the list of free pools: domain 0 while it looks at it, or writes it anew, and one that gives pools
/// back, that it names none.
pub struct Listing {
    /// The owner words that it found, from pool 0 on.
    pub owners: LinkedList<u64>,
    /// The pools that it wrote into the list, from its first place on.
    pub names: LinkedList<u64>,
    /// Where the cursor stands, once it was looked at or set.
    pub cursor: Option<u64>,
    /// How many of them the word of the listed pools says.
    pub listed: u64,
}

/// What a domain's token holds.
#[derive(Drop)]
pub struct Own {
    pub number: u32,
    pub registers: [Value; 16],
    /// The class words of the young blocks that the domain has made.
    pub used: u32,
    /// How many labels the domain has given out.
    pub serial: u32,
    /// How often the domain has arrived at the barrier.
    pub arrivals: u64,
    /// For each size class, how far a free place of it was looked for.
    pub looked: [Search; CLASS_COUNT],
    /// The fields of blocks in pools into which the domain stored addresses of minor areas since its
    /// last collection. There is room for as many as a minor area has words.
    pub remembered: Remembered,
    /// For each size class, the place of an own pool that is prepared for a copy.
    pub prepared: [Option<u32>; CLASS_COUNT],
    /// The copies that the domain has made in this collection.
    pub pending: BoundedList<Copied>,
    /// The ephemerons in the domain's own pools, and those that a sweep has still to free.
    pub ephemerons: BoundedList<u32>,
    pub finalisers: Finalisers,
    /// How far it has swept.
    pub swept: Swept,
}

/// A registration of `finalise`: the block's address, the finaliser's number, and the register that
/// holds the block again once it runs.
#[derive(Clone, Copy, Debug, PartialEq, Eq)]
pub struct Registered {
    pub address: u32,
    pub number: u32,
    pub register: u8,
}

/// A registration of `finalise_last`: the block's address and the finaliser's number.
#[derive(Clone, Copy, Debug, PartialEq, Eq)]
pub struct RegisteredLast {
    pub address: u32,
    pub number: u32,
}

/// A finaliser that is to run.
#[derive(Clone, Copy, Debug, PartialEq, Eq)]
pub enum Waiting {
    /// One of `finalise`, which keeps its block alive.
    Fin {
        address: u32,
        number: u32,
        register: u8,
    },
    /// One of `finalise_last`, which keeps nothing alive.
    Last {
        number: u32,
    },
}

/// The registrations of a domain, the oldest first, and its queue, the next finaliser first.
#[derive(Drop)]
pub struct Finalisers {
    pub finals: BoundedQueue<Registered>,
    pub lasts: BoundedQueue<RegisteredLast>,
    pub queue: BoundedQueue<Waiting>,
}

/// A place in these lists.
#[derive(Clone, Copy, Debug, PartialEq, Eq)]
pub enum Held {
    Final(u32),
    Last(u32),
    Queue(u32),
}

/// A copy of a young block, and the block's address.
#[derive(Clone, Copy, Debug, PartialEq, Eq)]
pub struct Copied {
    pub copy: u32,
    pub source: u32,
}

/// The shape of a block.
pub enum Form {
    Plain { size: u16, tag: u8 },
    Raw { size: u16, tag: u8 },
    Ephe { keys: u16 },
}

/// A block that a domain has met.
pub struct Met {
    pub address: u32,
    pub label: Label,
    pub form: Form,
}

/// A copy that a domain is to fill from a young block, and how many values it has.
pub struct Owing {
    pub copy: u32,
    pub source: u32,
    pub filled: u32,
}

/// What a domain has met in a collection of young blocks, and which copies it is to fill.
pub struct Copying {
    pub met: LinkedList<Met>,
    pub pending: LinkedList<Owing>,
    /// The young blocks of which it knows a copy, its own or another domain's.
    pub copied: LinkedList<Copied>,
}

/// A head that a domain found.
pub struct FoundHead {
    pub address: u32,
    pub word: u64,
}

/// A pool, and the class of its blocks.
pub struct OwnPool {
    pub pool: u32,
    pub class: u32,
}

/// How far a domain is in a block that it scans, or in an ephemeron whose keys it looks at.
pub enum Scan {
    /// It scans none.
    Idle,
    /// What so many fields of the block refer to is marked. This head was found there.
    Reads {
        block: u32,
        done: u32,
        size: u32,
        head: u64,
    },
    /// So is that, and the next field refers to the block at this address.
    Holds {
        block: u32,
        done: u32,
        size: u32,
        head: u64,
        address: u32,
    },
    /// The block is an ephemeron with so many keys. Of the first of them those that are full are
    /// marked.
    Keys {
        block: u32,
        done: u32,
        count: u32,
    },
    /// So are they, and the next key refers to the block at this address.
    Key {
        block: u32,
        done: u32,
        count: u32,
        address: u32,
    },
    /// All its full keys are marked, and its datum refers to the block at this address.
    Datum {
        block: u32,
        address: u32,
    },
}

/// What a domain that empties keys knows of the next one.
pub enum NextKey {
    Unknown,
    /// It refers to the block at this address.
    Refers { address: u32 },
    /// It is full, and its block isn't marked.
    Dead,
}

/// How far a domain is in an ephemeron of which it empties the keys that aren't marked.
pub struct Cleaning {
    pub block: u32,
    /// Its label, once the domain has loaded it.
    pub label: Option<Label>,
    /// So many keys it has looked at.
    pub done: u32,
    pub count: u32,
    /// Those of them that it has emptied.
    pub emptied: LinkedList<u32>,
    pub next: NextKey,
}

/// What a domain that runs knows of a block of the pools, while a cycle goes on beside running
/// domains. It stays true until the domain arrives, whatever the others do.
pub enum Known {
    /// Some domain has this pool, for blocks of this class.
    Pool {
        pool: u32,
        class: u32,
    },
    /// The block at this address is marked.
    Marked {
        address: u32,
    },
    /// This head was found there, and it is there still, or the block was marked since.
    Found {
        address: u32,
        word: u64,
    },
    /// The block is marked, and this head of it was found.
    Shape {
        address: u32,
        head: u64,
    },
    /// What the field of the block referred to when the roots had been darkened is marked, or is the
    /// block at this address.
    Refers {
        block: u32,
        field: u32,
        address: u32,
    },
    /// What the field of the block referred to then is marked.
    Done {
        block: u32,
        field: u32,
    },
    /// It has darkened the block at this address.
    Darkened {
        address: u32,
    },
    /// It has found the block at this address grey, and scanned it.
    Scanned {
        address: u32,
    },
    /// It has looked at this address, and found no grey block there.
    Vain {
        address: u32,
    },
}

/// What a domain knows of the present phase. It forgets all of it but how far a collection has come
/// when it arrives.
pub struct Share {
    /// The meanings of the colours, once it has loaded them.
    pub colours: Option<Colours>,
    /// Whether a cycle goes on beside running domains, once it has loaded or stored the armed word.
    pub armed: Option<bool>,
    /// What it knows of blocks while it runs beside a cycle.
    pub known: LinkedList<Known>,
    /// The register whose block a weak read has brought, and which is still to be darkened.
    pub weak: Option<u8>,
    /// The changed word, once domain 0 has loaded it in an odd phase.
    pub changed: Option<u64>,
    /// The word of the live blocks, once it has loaded or written it.
    pub blocks: Option<u64>,
    /// The word of the live words, likewise.
    pub words: Option<u64>,
    /// Whether domain 0 has rotated the colours in this phase.
    pub rotated: bool,
    /// Whether it has still to store that it darkened a block.
    pub owes: bool,
    /// The blocks that it has darkened in Mark, and doesn't know to be scanned since.
    pub account: LinkedList<u32>,
    /// The own places at which it has found what the phase asks.
    pub places_seen: LinkedList<u32>,
    /// The head that it found last.
    pub found_head: Option<FoundHead>,
    pub scan: Scan,
    /// The place of the pools before which it has been at each own place.
    pub walk: Spot,
    /// A pool that is its own.
    pub own_pool: Option<OwnPool>,
    /// The registers whose blocks are marked.
    pub roots: LinkedList<u8>,
    /// Blocks that are marked.
    pub marked: LinkedList<u32>,
    /// How many blocks it has darkened in the phase.
    pub darkenings: u64,
    /// At most so many blocks of the pools weren't marked when the present phase of the marking began, as
    /// domain 0 has it.
    pub unmarked: u64,
    /// The own blocks that it has counted, up to this place of the pools, and the words that they have.
    pub counted: LinkedList<u32>,
    pub counted_to: Spot,
    pub counted_words: u64,
    /// Whether it has added them to the live blocks, and to the live words.
    pub added_blocks: bool,
    pub added_words: bool,
    /// The own pools before this one hold blocks, and so many places of this one are free.
    pub held: u32,
    pub vacant: u32,
    /// The ephemeron of which it empties keys.
    pub cleaning: Option<Cleaning>,
    /// So many registrations it has looked at, and their blocks are marked.
    pub kept: u32,
    /// The places of the queue whose blocks are marked.
    pub waiting: LinkedList<u32>,
    /// How far domain 0 has brought a collection.
    pub progress: Progress,
    /// How far it is in sweeping a pool.
    pub reaping: Reaping,
    /// The places that it has swept in this phase, the last one first.
    pub swept: LinkedList<Spot>,
}

/// What contracts alone know of a domain.
pub struct Seen {
    /// The history as far as the domain has seen it.
    pub front: LinkedList<Entry>,
    /// The words, from the label on, that are written of the block that the domain is making.
    pub made: LinkedList<u64>,
    /// Where the domain stands in the phases.
    pub stage: Stage,
    /// What the domain found and did at the control words, in order.
    pub notes: LinkedList<Note>,
    /// How far the domain is in taking a free block of the pools.
    pub hunt: Hunt,
    /// How many pools were free each time that the domain looked since it last arrived, the last time
    /// first.
    pub free: LinkedList<u64>,
    /// A place of an own pool that was free when the heap started. It stays so until the domain arrives
    /// or makes a block in a pool.
    pub spare: Option<Spare>,
    /// The list of free pools, since the domain began to write it in this phase, or to look whether it may stay.
    pub listing: Option<Listing>,
    /// What it has met and owes in a collection of young blocks.
    pub copying: Copying,
    /// The remembered fields that may still hold addresses of minor areas.
    pub remembered: LinkedList<u32>,
    /// What it knows of the present phase.
    pub share: Share,
}

/// A domain: what its token holds, and what contracts alone know of it.
pub struct DomainView {
    pub own: Own,
    pub seen: Seen,
}

/// The view of a seat: one part for each domain that the seat stands for.
pub struct View {
    pub config: Config,
    pub history: LinkedList<Entry>,
    pub domains: LinkedList<DomainView>,
}

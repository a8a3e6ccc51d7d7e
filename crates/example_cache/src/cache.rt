//! A cache, and its calls.
ghost use Rattle.std.specs.Prelude.{◌≡◌, ◌<◌, ◌≤◌, ◌-◌, ℕ, IfErr, IfOk, None, replicate};
ghost use Rattle.model_core.specs.Counts.Counts.{labels_of};
ghost use Rattle.model_core.specs.Domains.{IsWithinLimits};
ghost use Rattle.heap_rule.specs.Limits.{sizes_in};
ghost use Rattle.weak_laws.specs.Tables.Performing.{Performed};
ghost use Rattle.model_core.specs.declared.graph.Value.TheVariants as value;
ghost use Rattle.model_core.specs.Graph.{label_of};
ghost use Rattle.example_cache.specs.Caching.{GetAnswers, HasCollected, InsertAnswers, IsKept, KeepsAll, KeepsRegisters, KeyAnswers, NoCache, RoomAnswers, SparesCache, TakeAnswers, holds, places, entry_of as entry_shown, inserted_of as inserted_by};

use model_core::command::Command;
use model_core::reply::Reply;
use run_session::TableSession;
use run_session::domains::SessionDomain;
use std::marker::Model;
use std::sync::Wait;
use weak_cache::cache::{cache_get, cache_make, cache_put, cache_take};

// The register that holds the block of the cache.
const HOME: u8 = 7;

/// What an insertion came to.
#[derive(Clone, Copy, Debug, PartialEq, Eq)]
pub enum Inserted {
    /// The cache has the entry.
    Stored,
    /// The heap has no room.
    NoRoom,
    /// One register holds no key, or the other nothing.
    NoKey,
}

/// A cache on a heap: so many entries at most, each of a key. A key is a block that the program holds in one of the
/// registers 0 to 6, and so is what the cache has of it, or an integer. An entry stays while its key can be reached, and
/// goes where so many other keys were used since.
#[derive(Drop)]
pub struct Cache {
    heap: SessionDomain,
    most: u16,
}

impl Model for Cache {
    ghost use Rattle.example_cache.specs.Caching.{CacheView, IsCache};

    ghost Value = { CacheView };

    ghost view = { λ c. record { heap = c.heap; most = c.most } };

    ghost invariant = { λ c. IsCache (record { heap = c.heap; most = c.most }) };
}

// The entry that a reply shows, if it shows one.
fn entry_of(reply: Reply) -> Option<Reply>
    ensures { result ≡ entry_shown reply }
{
    match reply {
        Reply::BadType | Reply::Empty => None,
        _ => Some(reply),
    }
}

// What the reply of a put says of it.
fn inserted_of(reply: &Reply) -> Inserted
    ensures { result ≡ inserted_by reply.now }
{
    match reply {
        Reply::BadType => Inserted::NoKey,
        Reply::Full => Inserted::NoRoom,
        _ => Inserted::Stored,
    }
}

impl Cache {
    /// An empty cache of at most so many entries. Hands the heap back where it has no room for the cache.
    pub fn make<R: Wait>(rt: &R, session: TableSession, most: u16) -> Result<Cache, TableSession>
        requires few { (1 ≤ most) × (most ≤ 1022) }
        ensures most { IfOk result (λ c. c.most ≡ most) }
        ensures empty { IfOk result (λ c. places c ≡ replicate most None) }
        ensures none { IfErr result (λ s. NoCache session s) }
    {
        let mut heap = SessionDomain::new(session);
        if heap.session().labels_left() < 1 {
            return Err(heap.into_inner());
        }
        match cache_make(&mut heap, rt, HOME, most) {
            Reply::Block(_) => Ok(Cache { heap, most }),
            _ => Err(heap.into_inner()),
        }
    }

    /// Makes a key, into a register below 7. Answers whether there was room.
    pub fn new_key<R: Wait>(&mut self, rt: &R, r: u8) -> bool
        requires few { r < 7 }
        ensures key { KeyAnswers self.old self.new r result }
        ensures entries { KeepsAll self.old self.new }
        ensures registers { KeepsRegisters self.old self.new r }
    {
        if self.heap.session().labels_left() < 1 {
            return false;
        }
        let key = Command::Alloc {
            dst: r,
            tag: 0,
            fields: 1,
        };
        matches!(self.make_spare(rt, key), Reply::Block(_))
    }

    /// Lets go of what a register below 7 holds.
    pub fn let_go<R: Wait>(&mut self, rt: &R, r: u8)
        requires few { r < 7 }
        ensures none { holds self.new r ≡ value.Nothing }
        ensures entries { KeepsAll self.old self.new }
        ensures registers { KeepsRegisters self.old self.new r }
    {
        self.make_spare(rt, Command::Forget { dst: r });
    }

    /// Has the heap collect all that can't be reached.
    pub fn collect<R: Wait>(&mut self, rt: &R)
        ensures collected { HasCollected self.old self.new }
        ensures entries { KeepsAll self.old self.new }
        ensures registers { KeepsRegisters self.old self.new 7 }
    {
        self.make_spare(rt, Command::FullMajor);
    }

    /// Puts an entry: of the key in one register what the other holds. Where the cache has as many as it may have, and none
    /// of that key, the entry goes whose key was used least recently. Registers are below 7.
    pub fn insert<R: Wait>(&mut self, rt: &R, key: u8, item: u8) -> Inserted
        requires few { (key < 7) × (item < 7) }
        ensures room { RoomAnswers self.old self.new result }
        ensures answers { InsertAnswers self.old self.new (label_of (holds self.old key)) (holds self.old item) result }
        ensures registers { KeepsRegisters self.old self.new 7 }
    {
        if self.heap.session().labels_left() < 1 || self.heap.session().ephes_room() < 1 {
            return Inserted::NoRoom;
        }
        self.heap.session().shows_legal();
        let reply = cache_put(&mut self.heap, rt, HOME, self.most, key, item);
        self.heap.session().shows_legal();
        inserted_of(&reply)
    }

    /// The entry of the key in a register, which goes into another and is shown, or none. Registers are below 7.
    pub fn get<R: Wait>(&mut self, rt: &R, dst: u8, key: u8) -> Option<Reply>
        requires few { (dst < 7) × (key < 7) }
        ensures answers { GetAnswers self.old self.new dst (label_of (holds self.old key)) result }
        ensures registers { KeepsRegisters self.old self.new dst }
    {
        self.heap.session().shows_legal();
        let reply = cache_get(&mut self.heap, rt, dst, HOME, self.most, key);
        self.heap.session().shows_legal();
        entry_of(reply)
    }

    /// Takes the entry of the key in a register out: it goes into another and is shown, or none. Registers are below 7.
    pub fn take<R: Wait>(&mut self, rt: &R, dst: u8, key: u8) -> Option<Reply>
        requires few { (dst < 7) × (key < 7) }
        ensures answers { TakeAnswers self.old self.new dst (label_of (holds self.old key)) result }
        ensures registers { KeepsRegisters self.old self.new dst }
    {
        self.heap.session().shows_legal();
        let reply = cache_take(&mut self.heap, rt, dst, HOME, self.most, key);
        self.heap.session().shows_legal();
        entry_of(reply)
    }

    // Makes a command that spares the cache.
    fn make_spare<R: Wait>(&mut self, rt: &R, command: Command) -> Reply
        requires spares { SparesCache command }
        requires label { labels_of command ≤ 4294967295 - self.old.heap.labels }
        ensures limits { IsWithinLimits (sizes_in self.old.heap.config) }
        ensures sizes { sizes_in self.new.heap.config ≡ sizes_in self.old.heap.config }
        ensures performed { Performed (sizes_in self.old.heap.config) self.old.heap.front self.new.heap.front command result }
        ensures entries { KeepsAll self.old self.new }
        ensures registers { (r : ℕ) → IsKept command r → holds self.new r ≡ holds self.old r }
    {
        self.heap.session().shows_legal();
        self.heap.command(rt, command)
    }
}

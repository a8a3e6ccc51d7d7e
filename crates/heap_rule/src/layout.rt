//! The words of the table at the start. docs/HEAP.md draws where they lie.
ghost use Rattle.std.specs.Prelude.{◌≡◌, ◌≢◌, ℕ, ◌+◌, ◌*◌, ◌-◌, ◌<◌, ◌≤◌, length, replicate, slice_index, false, None, IfOk};
ghost use Rattle.model_core.specs.Domains.{IsWithinLimits};
ghost use Rattle.model_core.specs.Fronts.{PlainShape};
ghost use Rattle.heap_rule.specs.Limits.{sizes_in};
ghost use Rattle.heap_rule.specs.Places.{HeadIs};
ghost use Rattle.heap_rule.specs.Layout.{heap_words, before_heap, table_words};
ghost use Rattle.heap_rule.specs.Opening.{IsOpening, Fills};

use crate::config::Config;
use heap_words::classes::POOL_WORDS;
use heap_words::{Colours, Head, Value, pack_colours, pack_head, pack_label, pack_value};
use std::alloc::{AllocError, Global};

/// The index of the want word: which collections the domains ask for.
pub const WANT: usize = 0;

/// The index of the barrier word: how often the domains have arrived.
pub const BARRIER: usize = 1;

/// The index of the plan word: which phase comes next.
pub const PLAN: usize = 2;

/// The index of the changed word: whether a block was darkened that the domain which darkened it may not have scanned.
pub const CHANGED: usize = 3;

/// The index of the word that says how many traces have ended.
pub const ENDED: usize = 8;

/// The index of the colours word.
pub const COLOURS: usize = 5;

/// The index of the word that says how many pools are in the list of free pools.
pub const LISTED: usize = 6;

/// The index of the word that says how many of them were asked for.
pub const CURSOR: usize = 7;

/// The index of the word that says how many blocks a collection has left.
pub const LIVE_BLOCKS: usize = 9;

/// The index of the word that says how many words they have.
pub const LIVE_WORDS: usize = 10;

/// The index of the first word of the list of free pools.
pub(crate) const LIST: usize = 11;

/// The owner word of the shared block's pool: domain 0, and the class of 32 words.
const SHARED_OWNER: u64 = 4;

/// The colour that means unmarked at the start.
const UNMARKED: u8 = 1;

/// The fields of the shared block.
const SHARED_FIELDS: u16 = 16;

// The index of the word with this address.
pub(crate) fn index_of(pools: u32, address: u32) -> usize
    ensures { result ≡ 10 + 2 * pools + address }
{
    10 + 2 * pools as usize + address as usize
}

// How many words the table has.
fn count_of(config: &Config) -> usize
    requires { IsWithinLimits (sizes_in config.now) }
    ensures { result ≡ table_words config.now }
{
    let areas = config.domains as usize * config.minor_words as usize;
    11 + 2 * config.pools as usize + config.pools as usize * POOL_WORDS as usize + areas
}

// Lists the pools from 1 on.
fn list_pools(words: &mut [u64], count: usize)
    requires { 11 + count ≤ length words.old }
    ensures { Fills words.old words.new 11 count (λ i. i + 1) }
{
    for i in 0..count {
        words[LIST + i] = i as u64 + 1;
    }
}

// Puts the integer 0 into so many words.
fn put_zeros(words: &mut [u64], from: usize, count: usize)
    requires { from + count ≤ length words.old }
    ensures { Fills words.old words.new from count (λ _. 1) }
{
    let zero = pack_value(Value::Int(0));
    for i in 0..count {
        words[from + i] = zero;
    }
}

// The head of the shared block.
fn shared_head() -> u64
    ensures { HeadIs None (PlainShape 16 0) 1 false result }
{
    pack_head(Head::Plain {
        size: SHARED_FIELDS,
        tag: 0,
        colour: UNMARKED,
        scanned: false,
    })
}

// The colours word of a heap in which no cycle has been.
fn opening_colours() -> u64
    ensures { result ≡ 36 }
{
    pack_colours(Colours {
        marked: 0,
        unmarked: UNMARKED,
        garbage: 2,
    })
}

// Writes the words that aren't 0 at the start.
fn fill_opening(words: &mut [u64], config: &Config)
    requires limits { IsWithinLimits (sizes_in config.now) }
    requires wide { length words.old ≡ table_words config.now }
    requires zeros { (i : ℕ) → slice_index words.old i ≡ 0 }
    ensures { IsOpening config.now words.new }
{
    let pools = config.pools as usize;
    words[COLOURS] = opening_colours();
    words[LISTED] = pools as u64 - 1;
    list_pools(words, pools - 1);
    words[LIST + pools] = SHARED_OWNER;
    let shared = index_of(config.pools, 1);
    words[shared] = shared_head();
    words[shared + 1] = pack_label(0, 0);
    put_zeros(words, shared + 2, SHARED_FIELDS as usize);
}

// How many words are laid at once.
const PIECE: usize = 512;

// So many words that are 0.
fn zeros(alloc: Global, count: usize) -> Result<Vec<u64>, AllocError>
    ensures { IfOk result (λ v. v.items ≡ replicate count 0) }
{
    let piece = [0; PIECE];
    let mut words = Vec::with_capacity(alloc, count)?;
    for _ in 0..count / PIECE {
        words.extend_from_slice(&piece)?;
    }
    words.extend_from_slice(&piece[..count % PIECE])?;
    Ok(words)
}

/// The words of the table at the start.
pub(crate) fn opening_words(alloc: Global, config: &Config) -> Result<Vec<u64>, AllocError>
    requires { IsWithinLimits (sizes_in config.now) }
    ensures { IfOk result (λ v. IsOpening config.now v.items) }
{
    let mut words = zeros(alloc, count_of(config))?;
    fill_opening(words.as_mut_slice(), config);
    Ok(words)
}

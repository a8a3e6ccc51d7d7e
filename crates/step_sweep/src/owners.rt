//! Who owns a pool.
ghost use Rattle.step_sweep.specs.Owners.{TellsClass};

use heap_words::classes::CLASS_COUNT;
use step_pools::owner_word;

/// The index of the owner word of the first pool, less the number of pools.
pub const OWNERS: u32 = 11;

/// The class of the domain's pool whose owner word this is. `None` exactly where the pool isn't its.
pub fn own_class(word: u64, domain: u32) -> Option<u32>
    ensures { TellsClass word domain result }
{
    let first = owner_word(domain, 0);
    if word < first || word - first >= CLASS_COUNT as u64 {
        return None;
    }
    Some((word - first) as u32)
}

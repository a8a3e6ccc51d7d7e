//! The stores that empty keys and data of ephemerons, in Clean.
ghost use Rattle.heap_rule.specs.Standing.{IsInHeap};
ghost use Rattle.heap_rule.specs.Token.{IsIn};
ghost use Rattle.step_ephemerons.specs.Wipes.Wiping.{WipeDataMay, WipeDataTold, WipeKeyMay, WipeKeyTold};

use heap_rule::{Domain, Heap, Leaving, raw_store};
use std::marker::Brand;

// The word of nothing.
const NOTHING: u64 = 0;

/// A store of nothing in the next key of the ephemeron that the domain cleans, in Clean, where that
/// key is full and its block isn't marked. The key is done then. `at` is the key's address.
pub fn wipe_key(heap: &Heap, dom: &mut Domain, at: u32)
    requires here { IsIn dom.old heap.now }
    requires inside { IsInHeap heap.now.config at }
    requires may { WipeKeyMay dom.old.view at }
    ensures here { IsIn dom.new heap.now }
    ensures told { WipeKeyTold dom.old.view 0 dom.new.view }
{
    let key_index = heap.index_of(at);
    raw_store::<Brand, Leaving>(heap, dom, key_index, NOTHING, &Leaving, &[]);
}

/// A store of nothing in the datum of the ephemeron that the domain cleans, in Clean, where it has
/// looked at all its keys and emptied some. The Wipe of these keys stands at the store, and the domain
/// is done with the ephemeron. `at` is the datum's address.
pub fn wipe_data(heap: &Heap, dom: &mut Domain, at: u32)
    requires here { IsIn dom.old heap.now }
    requires inside { IsInHeap heap.now.config at }
    requires may { WipeDataMay dom.old.view at }
    ensures here { IsIn dom.new heap.now }
    ensures told { WipeDataTold heap.now.config dom.old.view 0 dom.new.view }
{
    let datum_index = heap.index_of(at);
    raw_store::<Brand, Leaving>(heap, dom, datum_index, NOTHING, &Leaving, &[]);
}

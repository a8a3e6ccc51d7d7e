//! The return of pools in which nothing is left.
ghost use Rattle.heap_rule.specs.Token.{IsIn};
ghost use Rattle.step_sweep.specs.Holding.{Returns};
ghost use Rattle.step_sweep.specs.Returning.{ListVoided, ReturnMay, ReturnTold, TopMay, TopTold};

use crate::looking::Looking;
use crate::owners::own_class;
use heap_rule::{Change, Domain, Heap, LISTED, Leaving, Own, Writing, raw_load, raw_store};
use std::marker::Brand;

// The top sinks to a pool that isn't the domain's own.
#[derive(Clone, Copy)]
struct Sinking {
    pool: u32,
}

impl Writing for Sinking {
    ghost use Rattle.step_sweep.specs.Returning.{SinksTop};

    ghost can = { λ _ _ _ _. Unit {0} };

    ghost writes = { λ s found _ own after. SinksTop s.pool found own after };

    fn write(&self, found: u64, _changes: &[Change], own: &mut Own) {
        match own_class(found, own.number) {
            None => own.swept.top = self.pool,
            Some(_) => (),
        }
    }
}

/// A store of 0 to the number of listed pools by a domain that is to give a pool back. It knows then that the list of free
/// pools names none, so domain 0 writes it anew before the domains run.
pub fn list_void(heap: &Heap, dom: &mut Domain)
    requires here { IsIn dom.old heap.now }
    requires returns { Returns heap.now.config dom.old.view }
    ensures here { IsIn dom.new heap.now }
    ensures told { ListVoided dom.old.view 0 dom.new.view }
{
    raw_store::<Brand, Leaving>(heap, dom, LISTED, 0, &Leaving, &[]);
}

/// A store of 0 to the owner's word of the next pool, in Answer, or in Sweep where all own pools are
/// swept. The pool is the domain's own, and each of its places was found free; the list of free pools names none. The pool is nobody's then, and the pool behind it is next.
/// `at` is the index of the owner's word.
pub fn pool_return(heap: &Heap, dom: &mut Domain, at: u32, pool: u32, class: u32)
    requires here { IsIn dom.old heap.now }
    requires may { ReturnMay heap.now.config dom.old.view at pool class }
    ensures here { IsIn dom.new heap.now }
    ensures told { ReturnTold pool dom.old.view 0 dom.new.view }
{
    let _limits = heap.config();
    let writing = Looking {
        at,
        pool,
        class,
        slot: 0,
    };
    raw_store::<Brand, Looking>(heap, dom, at as usize, 0, &writing, &[]);
}

/// A load of the owner of the last pool below the top, in Answer, or in Sweep where all own pools are swept. Where it isn't the
/// domain's own the top sinks to it. `at` is the index of the owner's word. Answers it.
pub fn top_load(heap: &Heap, dom: &mut Domain, at: u32, pool: u32) -> u64
    requires here { IsIn dom.old heap.now }
    requires may { TopMay heap.now.config dom.old.view at pool }
    ensures here { IsIn dom.new heap.now }
    ensures told { TopTold pool dom.old.view result dom.new.view }
{
    let _limits = heap.config();
    raw_load::<Brand, Sinking>(heap, dom, at as usize, &Sinking { pool }, &[])
}

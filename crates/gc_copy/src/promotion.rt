//! A domain's share of a collection.
ghost use Rattle.std.specs.Prelude.{◌≡◌, ◌<◌, ◌+◌};
ghost use Rattle.model_core.specs.Domains.{class_count};
ghost use Rattle.heap_rule.specs.declared.phase.Kind.TheVariants.{Promote};
ghost use Rattle.heap_rule.specs.declared.phase.Stage.TheVariants.{In};
ghost use Rattle.heap_rule.specs.declared.view.Hunt.TheVariants.{Rests};
ghost use Rattle.heap_rule.specs.Token.{IsIn};
ghost use Rattle.gc_copy.specs.Sharing.{Gives, GaveBack, HasToCopy, Shared};
ghost use Rattle.gc_copy.specs.Working.{Works};

use crate::filling::fill_all;
use crate::finalisers::move_finalisers;
use crate::places::spot_in;
use crate::roots::{move_registers, rewrite_fields};
use heap_rule::{Domain, Heap};
use heap_words::classes::CLASS_COUNT;
use step_promote::free_store;

// Gives the place back that was prepared for a class, if there is one.
fn release(heap: &Heap, dom: &mut Domain, class: u32)
    requires here { IsIn dom.old heap.now }
    requires class { class < class_count }
    requires gives { Gives heap.now.config class dom.old.view dom.old.view }
    ensures here { IsIn dom.new heap.now }
    ensures gives { Gives heap.now.config (class + 1) dom.old.view dom.new.view }
{
    let _limits = heap.config();
    let Some(at) = dom.prepared(class) else {
        return;
    };
    let spot = spot_in(at, class);
    free_store(heap, dom, at, spot.pool, class, spot.slot);
}

// Gives the places back that were prepared for claims which another domain won.
fn give_back(heap: &Heap, dom: &mut Domain)
    requires here { IsIn dom.old heap.now }
    requires works { Works heap.now.config dom.old.view }
    ensures here { IsIn dom.new heap.now }
    ensures gave { GaveBack dom.old.view dom.new.view }
{
    for class in 0..CLASS_COUNT as u32 {
        release(heap, dom, class);
    }
}

/// A domain's share of a phase in which the domains copy young blocks: all that its registers, its
/// lists of finalisers and its remembered fields lead to is copied, as far as no other domain copies
/// it. Afterwards no register, no list and none of these fields has an address of a minor area, each
/// copy that the domain made has all its values, none of which is such an address, and no place is
/// prepared: the domain may arrive. Each register stands for what it stood for: where it held the
/// address of a young block it holds that of the block's copy. So does each place of the lists, of
/// which nothing else changes.
///
/// Nothing has been copied or prepared before, and the fields to be looked through are those of the
/// domain's list.
pub fn promote(heap: &Heap, dom: &mut Domain)
    requires here { IsIn dom.old heap.now }
    requires stage { dom.old.view.seen.stage ≡ In Promote }
    requires at_rest { dom.old.view.seen.hunt ≡ Rests }
    requires begins { HasToCopy dom.old.view }
    ensures here { IsIn dom.new heap.now }
    ensures shared { Shared heap.now.config dom.old.view dom.new.view }
{
    move_registers(heap, dom);
    move_finalisers(heap, dom);
    rewrite_fields(heap, dom);
    fill_all(heap, dom);
    give_back(heap, dom);
}

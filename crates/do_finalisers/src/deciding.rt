//! A domain's shares of a collection in which its finalisers are queued.
ghost use Rattle.std.specs.Prelude.{◌≡◌, false, []};
ghost use Rattle.heap_rule.specs.declared.phase.Kind.TheVariants.{Decide, Lasts, Queued};
ghost use Rattle.heap_rule.specs.declared.phase.Stage.TheVariants.{In};
ghost use Rattle.heap_rule.specs.Token.{IsIn};
ghost use Rattle.gc_mark.specs.Shares.{AllQueueRooted};
ghost use Rattle.do_finalisers.specs.Deciding.{AllDecided, AllLastsDecided};

use gc_mark::mark_queue;
use heap_rule::{Domain, Heap};
use step_finalisers::{final_look, last_look};
use step_marks::marking::colours_now;

/// A domain's share of the phase in which the registrations of `finalise` are decided: by then all that
/// is reachable is marked. Each of its registrations whose block isn't marked is queued, since the block
/// is unreachable for the first time, and each other stays (OCaml manual, module `Gc`, `finalise`).
/// The domain looks at the newest first, which is thus the first of those that are queued. Afterwards it
/// has looked at all of them, as is asked of it where it arrives. It begins where it has looked at none.
pub fn decide(heap: &Heap, dom: &mut Domain)
    requires here { IsIn dom.old heap.now }
    requires stage { dom.old.view.seen.stage ≡ In Decide }
    requires fresh { dom.old.view.seen.share.kept ≡ 0 }
    ensures here { IsIn dom.new heap.now }
    ensures decided { AllDecided heap.now.config dom.old.view dom.new.view }
{
    let _most = heap.config().finals;
    let _room = dom.finals_room();
    let colours = colours_now(heap, dom);
    let count = dom.finals_len() as u32;
    for looked in 0..count {
        let i = count - 1 - looked;
        let registered = dom.final_at(i as usize);
        final_look(heap, dom, registered.address, i, registered, colours.marked);
    }
}

/// A domain's share of the phase in which the blocks that queues keep alive are marked: a block that
/// waits for its `finalise` is reachable again once that has run, with all that it refers to (OCaml
/// manual, module `Gc`). Afterwards the domain is done with all places of its queue and owes no store of
/// the changed word, as is asked of it where it arrives.
pub fn darken_queued(heap: &Heap, dom: &mut Domain)
    requires here { IsIn dom.old heap.now }
    requires stage { dom.old.view.seen.stage ≡ In Queued }
    requires told { dom.old.view.seen.share.owes ≡ false }
    requires followed { dom.old.view.seen.share.account ≡ [] }
    ensures here { IsIn dom.new heap.now }
    ensures queued { AllQueueRooted dom.old.view dom.new.view }
{
    mark_queue(heap, dom);
}

/// A domain's share of the phase in which the registrations of `finalise_last` are decided: by then what
/// waits for its `finalise` is marked too. Each of its registrations whose block isn't marked is queued,
/// since the block is unreachable for the last time, and each other stays (OCaml manual, module `Gc`,
/// `finalise_last`). Their order, what is asked and what is done afterwards are as in `decide`.
pub fn last(heap: &Heap, dom: &mut Domain)
    requires here { IsIn dom.old heap.now }
    requires stage { dom.old.view.seen.stage ≡ In Lasts }
    requires fresh { dom.old.view.seen.share.kept ≡ 0 }
    ensures here { IsIn dom.new heap.now }
    ensures decided { AllLastsDecided heap.now.config dom.old.view dom.new.view }
{
    let _most = heap.config().finals;
    let _room = dom.finals_room();
    let colours = colours_now(heap, dom);
    let count = dom.lasts_len() as u32;
    for looked in 0..count {
        let i = count - 1 - looked;
        let registered = dom.last_at(i as usize);
        last_look(heap, dom, registered.address, i, registered, colours.marked);
    }
}

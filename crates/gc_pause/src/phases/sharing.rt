//! What a domain does in the even phases of a collection of the major heap.
ghost use Rattle.std.specs.Prelude.{◌≡◌, ◌≤◌, length};
ghost use Rattle.heap_rule.specs.declared.phase.Kind.TheVariants.{Lasts, Sweep};
ghost use Rattle.heap_rule.specs.declared.phase.Stage.TheVariants.{In};
ghost use Rattle.heap_rule.specs.declared.view.Hunt.TheVariants.{Rests};
ghost use Rattle.heap_rule.specs.Token.{IsIn};
ghost use Rattle.heap_rule.specs.Views.{voided};
ghost use Rattle.gc_mark.specs.Decks.{NotesOn};
ghost use Rattle.gc_pause.specs.Phases.Sharing.{gave_back, HasToGiveBack, HasToShare, HintsIn, IsShared, SharesIn, Works};

use crate::stops::arrive;
use do_ephemerons::{clean, round};
use do_finalisers::{darken_queued, decide, last};
use gc_mark::{Hints, mark_round, start_roots};
use gc_sweep::{count_own, return_pools, sweep_own};
use heap_rule::{Domain, Heap, Kind};
use step_sweep::sweep_anew;

// Decides the registrations of `finalise_last`. Once the colours are rotated the domain is to sweep all its
// pools.
fn decide_lasts(heap: &Heap, dom: &mut Domain)
    requires here { IsIn dom.old heap.now }
    requires stage { dom.old.view.seen.stage ≡ In Lasts }
    requires forgot { dom.old.view.seen.share ≡ voided dom.old.view.seen.share }
    ensures here { IsIn dom.new heap.now }
    ensures works { Works heap.now.config Lasts dom.old.view dom.new.view }
{
    last(heap, dom);
    sweep_anew(heap, dom);
}

// Frees the garbage of the own pools, counts what lives there, and gives the pools back in which nothing
// is left.
fn sweep_all(heap: &Heap, dom: &mut Domain)
    requires here { IsIn dom.old heap.now }
    requires stage { dom.old.view.seen.stage ≡ In Sweep }
    requires at_rest { dom.old.view.seen.hunt ≡ Rests }
    requires forgot { dom.old.view.seen.share ≡ voided dom.old.view.seen.share }
    ensures here { IsIn dom.new heap.now }
    ensures works { Works heap.now.config Sweep dom.old.view dom.new.view }
{
    sweep_own(heap, dom);
    count_own(heap, dom);
    return_pools(heap, dom);
}

// All that is asked of the domain in the phase before it arrives.
fn work(heap: &Heap, dom: &mut Domain, kind: Kind, hints: &mut Hints)
    requires here { IsIn dom.old heap.now }
    requires phase { IsShared kind }
    requires stage { dom.old.view.seen.stage ≡ In kind }
    requires at_rest { dom.old.view.seen.hunt ≡ Rests }
    requires forgot { dom.old.view.seen.share ≡ voided dom.old.view.seen.share }
    ensures here { IsIn dom.new heap.now }
    ensures works { Works heap.now.config kind dom.old.view dom.new.view }
    ensures notes { NotesOn hints.old hints.new }
    ensures hints { HintsIn kind (length dom.old.view.own.finalisers.queue.items) hints.old hints.new }
{
    match kind {
        Kind::Roots => start_roots(heap, dom, hints),
        Kind::Mark => mark_round(heap, dom, hints),
        Kind::Rounds => round(heap, dom, hints),
        Kind::Decide => decide(heap, dom),
        Kind::Queued => darken_queued(heap, dom),
        Kind::Clean => clean(heap, dom),
        Kind::Lasts => decide_lasts(heap, dom),
        Kind::Sweep => sweep_all(heap, dom),
        _ => unreachable!(),
    }
}

/// The domain does its share of an even phase of a collection of the major heap, and arrives. It has
/// done nothing in the phase before. In Roots it marks what its registers refer to and what its queue of
/// finalisers keeps alive, in Mark what the marked blocks of its own pools refer to, and in Rounds the
/// data of its marked ephemerons whose full keys are all marked, and what these lead to. In Decide it queues those of its
/// registrations of `finalise` whose blocks aren't marked, the newest first, behind all that waits
/// already; a block that is registered so lives on until its function has been called (OCaml manual,
/// module `Gc`). So in Queued it marks what its queue keeps alive. In Clean it empties the keys that
/// aren't marked of its marked ephemerons, and their data. In Lasts it queues those of its registrations
/// of `finalise_last` whose blocks aren't marked, the newest first: these blocks are unreachable for the
/// last time. There it notes too that it has swept nothing, for the colours are rotated next. In Sweep it
/// frees the garbage that is left in its own pools, which it takes off its list of ephemerons first,
/// counts what lives there, and gives the pools back in which nothing is left. All that it owns stays as it was but the number of its arrivals; where it
/// sweeps, from where it looks for free places, and its list of ephemerons, in which there is room for no
/// fewer; what it has swept; and, where registrations are decided, its lists of finalisers, of which none
/// is lost and none comes up. Its front stays but where registrations are decided and where keys are
/// emptied, and grows there by no entry of its own; where it is domain 0, by none by which a collection
/// begins, goes on or ends. In each phase but Roots and Mark it leaves its hints alone, and in Roots it
/// notes at most one for each register and one for each place of its queue.
pub fn share(heap: &Heap, dom: &mut Domain, kind: Kind, hints: &mut Hints)
    requires here { IsIn dom.old heap.now }
    requires shares { HasToShare kind dom.old.view }
    ensures here { IsIn dom.new heap.now }
    ensures shares { SharesIn heap.now.config kind dom.old.view dom.new.view }
    ensures notes { NotesOn hints.old hints.new }
    ensures hints { HintsIn kind (length dom.old.view.own.finalisers.queue.items) hints.old hints.new }
{
    work(heap, dom, kind, hints);
    arrive(heap, dom);
}

/// Where a collection is answered the domain gives back its pools in which nothing is left, and
/// arrives. It has looked at none of them in the phase before, and owes the darkening of no block. All
/// that it owns stays as it was but the number of its arrivals, and the top, which sinks to behind its last pool.
pub fn give_back(heap: &Heap, dom: &mut Domain)
    requires here { IsIn dom.old heap.now }
    requires gives { HasToGiveBack dom.old.view }
    ensures here { IsIn dom.new heap.now }
    ensures view { dom.new.view ≡ gave_back dom.old.view dom.new.view }
    ensures sinks { dom.new.view.own.swept.top ≤ dom.old.view.own.swept.top }
{
    return_pools(heap, dom);
    arrive(heap, dom);
}

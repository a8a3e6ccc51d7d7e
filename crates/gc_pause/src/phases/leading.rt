//! How domain 0 goes from one kind of phase to the next.
ghost use Rattle.std.specs.Prelude.{◌≡◌};
ghost use Rattle.heap_rule.specs.declared.phase.Stage.TheVariants.{Leads};
ghost use Rattle.heap_rule.specs.Token.{IsIn};
ghost use Rattle.step_pauses.specs.Pauses.{kind_in};
ghost use Rattle.gc_pause.specs.Stops.Looks.{MayName};
ghost use Rattle.gc_pause.specs.Phases.Leading.{HasToLead, LeadsOn, Named};
ghost use Rattle.gc_pause.specs.Phases.Measure.{NearerBy};

use crate::phases::decider::Decider;
use crate::phases::opening::open;
use crate::phases::progress::progress_after;
use crate::stops::{arrive, lead};
use heap_rule::{Domain, Heap, Kind, Progress};
use step_marks::marking::changed_clear;

// Names the next kind. Where blocks are marked next, nothing is changed so far.
fn name(heap: &Heap, dom: &mut Domain, next: Kind)
    requires here { IsIn dom.old heap.now }
    requires first { dom.old.view.own.number ≡ 0 }
    requires odd { dom.old.view.seen.stage ≡ Leads (kind_in dom.old.view.seen.stage) }
    requires may { MayName heap.now.config next dom.old.view }
    ensures here { IsIn dom.new heap.now }
    ensures named { Named heap.now.config next dom.old.view dom.new.view }
{
    lead(heap, dom, next);
    match next {
        Kind::Mark => changed_clear(heap, dom),
        _ => (),
    }
}

/// Domain 0, in an odd phase, finds which kind of phase comes next, does what belongs before it, names
/// it, and arrives. Answers the kind.
///
/// After Reset a collection of the major heap begins where none goes on, and one is asked for or fewer
/// than half of the pools are free; garbage that is left of the last one is freed first, in Sweep. Once
/// the roots are marked it goes on beside running domains, unless a complete one is asked for. One that
/// goes on so is finished in a later pause, where its end or a complete one is asked for. Blocks are
/// marked until nothing is changed in a whole phase. Where no complete collection is asked for it ends
/// with Lasts, and running domains free its garbage. Else its garbage is freed in Sweep. Then a
/// collection that began in this pause is answered, and another one is followed by one that begins in
/// this pause. `progress` says whether the cut of the collection is made, which matters in Rounds;
/// whether it began in this pause, which matters in Sweep; whether garbage of the last one is left,
/// which matters in Reset and Sweep; and whether one goes on beside running domains, which matters in
/// Reset. Afterwards it says so of the kind that is named.
///
/// `decider` says who decides. By `Wishes` it is asked for what the domains wish. By `Caller` a complete
/// collection is asked for, or none, as the caller says, and enough pools are free: then the kinds of a
/// pause follow from that and from how often something is changed. The words are read whoever decides.
///
/// With each kind that is named fewer phases of the pause are left: a complete collection in a pause that
/// begins without one has at most 14 even phases and four for each place of the pools.
///
/// The rule of sweeping beside running domains is of "Retrofitting Parallelism onto OCaml", section 3.2.
pub fn lead_on(
    heap: &Heap,
    dom: &mut Domain,
    last: Kind,
    decider: Decider,
    progress: &mut Progress,
) -> Kind
    requires here { IsIn dom.old heap.now }
    requires leads { HasToLead last dom.old.view }
    requires knows { progress.old ≡ dom.old.view.seen.share.progress }
    ensures here { IsIn dom.new heap.now }
    ensures leads { LeadsOn heap.now.config decider dom.old.view dom.new.view last result }
    ensures knows { progress.new ≡ dom.new.view.seen.share.progress }
    ensures nearer { NearerBy heap.now.config last result progress.old progress.new dom.old.view dom.new.view }
{
    let next = open(heap, dom, last, decider, *progress);
    name(heap, dom, next);
    arrive(heap, dom);
    *progress = progress_after(*progress, last, next);
    next
}

//! An empty minor area.
ghost use Rattle.std.specs.Prelude.{◌≡◌, []};
ghost use Rattle.heap_rule.specs.declared.phase.Kind.TheVariants.{Reset};
ghost use Rattle.heap_rule.specs.declared.phase.Stage.TheVariants.{In};
ghost use Rattle.heap_rule.specs.Copies.{HoldsOld};
ghost use Rattle.heap_rule.specs.Token.{IsIn};
ghost use Rattle.step_promote.specs.Promotion.{reset_view};

use heap_rule::{Domain, Heap};
use step_promote::area_reset;

/// Empties the domain's minor area, in the phase behind that in which the domains have copied all
/// young blocks that they need. The domain remembers no field then.
///
/// No young block is left: no register and no list of finalisers of the domain has an address of a
/// minor area.
pub fn reset(heap: &Heap, dom: &mut Domain)
    requires here { IsIn dom.old heap.now }
    requires stage { dom.old.view.seen.stage ≡ In Reset }
    requires idle { dom.old.view.seen.made ≡ [] }
    requires looked_through { dom.old.view.seen.remembered ≡ [] }
    ensures here { IsIn dom.new heap.now }
    ensures empty { dom.new.view ≡ reset_view dom.old.view }
    ensures holds_old { HoldsOld heap.now.config dom.old.view }
{
    let _limits = heap.config();
    let _number = dom.number();
    let first = dom.next_address() - dom.area_used();
    area_reset(heap, dom, first);
}

// A domain that is lent. `lend` has a file of its own: its clause names the row of `CamlheapDomain`, which the file that declares it can't import.
ghost use Rattle.std.specs.Prelude.{◌≡◌, true};
ghost use types.Logic.{sem};
ghost use denote.Follow.{follows};
ghost use Rattle.run_seats.specs.contracts.shared.shared.SharedRun.{the_row as run_row};
ghost use Rattle.camlheap_c.specs.contracts.handle.CamlheapDomain.{the_row};
ghost use Rattle.camlheap_c.specs.Lent.{handle_with};

use crate::handle::CamlheapDomain;
use run_seats::shared::SharedRun;

impl CamlheapDomain {
    // The domain that a handle holds, where it lies: the handle isn't written. When the borrow ends, the handle holds what was written through it.
    #[inline(always)]
    pub(crate) fn lend(&mut self) -> &mut SharedRun
        requires { self.old.full ≡ true }
        ensures* writes_back { sem 𝓛 (follows the_row run_row self.entry.ghost_name result.ghost_name (handle_with self.old)) }
        ensures value { result.now ≡ self.old.value }
    {
        unsafe { &mut *(self.at as *mut SharedRun) }
    }
}

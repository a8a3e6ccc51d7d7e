//! A domain as its pointer, or none.
ghost use Rattle.std.specs.Prelude.{◌≡◌, IfSome, None, true, false};
ghost use Rattle.std.specs.Option.{MatchOption};
ghost use Rattle.run_seats.specs.Shared.Sharing.{SharedView};
ghost use Rattle.run_seats.specs.contracts.shared.shared.SharedRun.{the_row as run_row};

use crate::loose::Loose;
use run_seats::shared::SharedRun;
use std::alloc::Global;
use std::marker::Model;

/// A domain, or none. Memory of zeros is none.
#[repr(C)]
#[derive(Drop)]
pub struct CamlheapDomain {
    // A `*mut SharedRun`: what C is handed names no type with cells.
    pub(crate) at: *mut u8,
    pub(crate) alloc: Global,
    pub(crate) full: bool,
    pub(crate) ghost value: { SharedView } by { run_row.coded },
}

impl Model for CamlheapDomain {
    ghost use Rattle.std.specs.Prelude.{cond};
    ghost use base.Fml.{ftrue};
    ghost use Rattle.std_alloc.specs.Box.Ownership.{box_owns};
    ghost use Rattle.std.specs.contracts.impls.GlobalAllocator.TheImpl.{ghosts};
    ghost use Rattle.run_seats.specs.contracts.shared.shared.SharedRun.{the_row as run_row};

    ghost also_owns = { λ h. cond h.full (box_owns (ghosts.dealloc_token h.alloc) run_row h.at h.value) ftrue };
}

impl CamlheapDomain {
    // A handle of a loose box.
    #[inline(always)]
    fn of_loose(loose: Loose<SharedRun, Global>) -> CamlheapDomain
        ensures { (result.full ≡ true) × (result.value ≡ loose.value) }
    {
        let Loose { at, alloc } = loose;
        CamlheapDomain {
            at: at as *mut u8,
            alloc,
            full: true,
        }
    }

    // A handle of none.
    #[inline(always)]
    fn none(alloc: Global) -> CamlheapDomain
        ensures { result.full ≡ false }
    {
        CamlheapDomain {
            at: std::ptr::null_mut(),
            alloc,
            full: false,
        }
    }

    // The loose box of a handle.
    #[inline(always)]
    fn into_loose(self) -> Option<Loose<SharedRun, Global>>
        ensures { MatchOption result (self.full ≡ false) (λ l. (self.full ≡ true) × (l.value ≡ self.value)) }
    {
        let CamlheapDomain { at, alloc, full } = self;
        if full {
            Some(Loose {
                at: at as *mut SharedRun,
                alloc,
            })
        } else {
            None
        }
    }

    // A handle of a run.
    #[inline(always)]
    pub(crate) fn of(run: Box<SharedRun>) -> CamlheapDomain
        ensures { (result.full ≡ true) × (result.value ≡ run.value) }
    {
        CamlheapDomain::of_loose(Loose::of(run))
    }

    // Whether there is a domain in a handle.
    #[inline(always)]
    pub(crate) fn is_full(&mut self) -> bool
        ensures { (result ≡ self.old.full) × (self.new ≡ self.old) }
    {
        self.full
    }

    // Puts another handle in its place, and answers the run that it held.
    #[inline(always)]
    fn replaced(&mut self, by: CamlheapDomain) -> Option<Box<SharedRun>>
        ensures some { IfSome result (λ b. (self.old.full ≡ true) × (b.value ≡ self.old.value)) }
        ensures none { result ≡ None → self.old.full ≡ false }
        ensures left { self.new ≡ by }
    {
        match std::mem::replace(self, by).into_loose() {
            Some(loose) => Some(loose.into_box()),
            None => None,
        }
    }

    // Puts a run into a handle. What that held before is freed.
    pub(crate) fn put(&mut self, run: Box<SharedRun>)
        ensures { (self.new.full ≡ true) × (self.new.value ≡ run.value) }
    {
        let _held = self.replaced(CamlheapDomain::of(run));
    }

    // Takes the run out of a handle.
    #[inline(always)]
    pub(crate) fn take(&mut self, alloc: Global) -> Option<Box<SharedRun>>
        ensures some { IfSome result (λ b. (self.old.full ≡ true) × (b.value ≡ self.old.value)) }
        ensures none { result ≡ None → self.old.full ≡ false }
        ensures left { self.new.full ≡ false }
    {
        self.replaced(CamlheapDomain::none(alloc))
    }
}

// It may go to another thread as its run may.
unsafe impl Send for CamlheapDomain {}

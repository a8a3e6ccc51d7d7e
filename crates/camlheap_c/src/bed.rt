//! A bed as its pointer, or none.
ghost use Rattle.std.specs.Prelude.{◌≡◌, IfSome, None, true, false};
ghost use Rattle.std.specs.Option.{MatchOption};
ghost use Rattle.run_seats.specs.Beds.Bedding.{BedView};
ghost use Rattle.run_seats.specs.Shared.Sharing.{SharedView};
ghost use Rattle.run_seats.specs.contracts.shared.bed.RunBed.{the_row as bed_row};

use crate::loose::Loose;
use run_seats::shared::RunBed;
use std::alloc::Global;
use std::marker::Model;

/// A bed, or none. Memory of zeros is none.
#[repr(C)]
#[derive(Drop)]
pub struct CamlheapBed {
    // A `*mut RunBed`: what C is handed names no type with cells.
    pub(crate) at: *mut u8,
    pub(crate) alloc: Global,
    pub(crate) full: bool,
    pub(crate) ghost value: { BedView SharedView } by { bed_row.coded },
}

impl Model for CamlheapBed {
    ghost use Rattle.std.specs.Prelude.{cond};
    ghost use base.Fml.{ftrue};
    ghost use Rattle.std_alloc.specs.Box.Ownership.{box_owns};
    ghost use Rattle.std.specs.contracts.impls.GlobalAllocator.TheImpl.{ghosts};
    ghost use Rattle.run_seats.specs.contracts.shared.bed.RunBed.{the_row as bed_row};

    ghost also_owns = { λ h. cond h.full (box_owns (ghosts.dealloc_token h.alloc) bed_row h.at h.value) ftrue };
}

impl CamlheapBed {
    // A handle of a loose box.
    fn of_loose(loose: Loose<RunBed, Global>) -> CamlheapBed
        ensures { (result.full ≡ true) × (result.value ≡ loose.value) }
    {
        let Loose { at, alloc } = loose;
        CamlheapBed {
            at: at as *mut u8,
            alloc,
            full: true,
        }
    }

    // A handle of none.
    fn none(alloc: Global) -> CamlheapBed
        ensures { result.full ≡ false }
    {
        CamlheapBed {
            at: std::ptr::null_mut(),
            alloc,
            full: false,
        }
    }

    // The loose box of a handle.
    fn into_loose(self) -> Option<Loose<RunBed, Global>>
        ensures { MatchOption result (self.full ≡ false) (λ l. (self.full ≡ true) × (l.value ≡ self.value)) }
    {
        let CamlheapBed { at, alloc, full } = self;
        if full {
            Some(Loose {
                at: at as *mut RunBed,
                alloc,
            })
        } else {
            None
        }
    }

    // A handle of a bed.
    pub(crate) fn of(bed: Box<RunBed>) -> CamlheapBed
        ensures { (result.full ≡ true) × (result.value ≡ bed.value) }
    {
        CamlheapBed::of_loose(Loose::of(bed))
    }

    // Puts another handle in its place, and answers the bed that it held.
    fn replaced(&mut self, by: CamlheapBed) -> Option<Box<RunBed>>
        ensures some { IfSome result (λ b. (self.old.full ≡ true) × (b.value ≡ self.old.value)) }
        ensures none { result ≡ None → self.old.full ≡ false }
        ensures left { self.new ≡ by }
    {
        match std::mem::replace(self, by).into_loose() {
            Some(loose) => Some(loose.into_box()),
            None => None,
        }
    }

    // Puts a bed into a handle. What that held before is freed.
    pub(crate) fn put(&mut self, bed: Box<RunBed>)
        ensures { (self.new.full ≡ true) × (self.new.value ≡ bed.value) }
    {
        let _held = self.replaced(CamlheapBed::of(bed));
    }

    // Takes the bed out of a handle.
    pub(crate) fn take(&mut self, alloc: Global) -> Option<Box<RunBed>>
        ensures some { IfSome result (λ b. (self.old.full ≡ true) × (b.value ≡ self.old.value)) }
        ensures none { result ≡ None → self.old.full ≡ false }
        ensures left { self.new.full ≡ false }
    {
        self.replaced(CamlheapBed::none(alloc))
    }
}

// It may go to another thread as its bed may.
unsafe impl Send for CamlheapBed {}

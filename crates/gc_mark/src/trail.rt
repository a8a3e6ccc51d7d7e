//! The blocks that a domain has marked itself, and is to follow.
ghost use Rattle.std.specs.Prelude.{◌≡◌, ◌≤◌, ◌+◌, ◌/◌, ◌++◌, ◌∷◌, [], true, false, IfOk, IfNone, IfSome, vec_len, vec_capacity};
ghost use Rattle.gc_mark.specs.Trails.{empty_trail, newer, renewed};

use std::alloc::{AllocError, Global};
use std::marker::Model;

// The addresses of blocks that a domain has marked in a phase and not yet looked at again. `make` takes
// all their memory. The last one is taken first, so that a list of blocks needs room for one. Where
// there is no room for one more the older half is let go: those blocks stay grey, and a later walk finds
// them. So a list whose blocks have many others beside them is followed to its end. It is kept whether
// an address may have been let go.
#[derive(Drop)]
pub(crate) struct Trail {
    addresses: Vec<u32>,
    lost: bool,
}

impl Model for Trail {
    ghost use Rattle.std.specs.Prelude.{◌-◌, ◌≤◌, vec_len, vec_capacity};
    ghost use Rattle.gc_mark.specs.Trails.{Trail};

    ghost Value = { Trail };

    ghost view = { λ r. record { items = r.addresses.items; room = vec_capacity r.addresses - vec_len r.addresses; lost = r.lost } };

    ghost invariant = { λ r. vec_len r.addresses ≤ vec_capacity r.addresses };
}

// Lets the older half of some addresses go.
fn keep_newer(addresses: &mut Vec<u32>)
    ensures items { addresses.new.items ≡ newer addresses.old.items }
    ensures len { vec_len addresses.new ≡ vec_len addresses.old / 2 }
    ensures capacity { vec_capacity addresses.new ≡ vec_capacity addresses.old }
{
    let kept = addresses.len() / 2;
    let older = addresses.len() - kept;
    addresses.rotate_left(older);
    addresses.truncate(kept);
}

impl Trail {
    // No address, with room for so many, all of which is taken here. Fails for want of memory alone.
    pub(crate) fn make(alloc: Global, room: usize) -> Result<Trail, AllocError>
        ensures { IfOk result (λ r. r ≡ empty_trail room) }
    {
        let addresses = Vec::with_capacity(alloc, room)?;
        Ok(Trail {
            addresses,
            lost: false,
        })
    }

    // Notes an address. Where there is no room the older half of the others is let go first. Takes no
    // memory.
    pub(crate) fn push(&mut self, address: u32)
        ensures noted { 1 ≤ self.old.room → (self.new.items ≡ self.old.items ++ address ∷ []) × (self.new.lost ≡ self.old.lost) }
        ensures full { self.old.room ≡ 0 → (self.new.items ≡ renewed self.old.items address) × (self.new.lost ≡ true) }
    {
        if self.addresses.len() < self.addresses.capacity() {
            self.addresses.push_reserved(address);
            return;
        }
        self.lost = true;
        if !self.addresses.is_empty() {
            keep_newer(&mut self.addresses);
            self.addresses.push_reserved(address);
        }
    }

    // Takes the address that was noted last.
    pub(crate) fn pop(&mut self) -> Option<u32>
        ensures last { IfSome result (λ address. self.old.items ≡ self.new.items ++ address ∷ []) }
        ensures none { IfNone result ((self.old.items ≡ []) × (self.new.items ≡ [])) }
        ensures lost { self.new.lost ≡ self.old.lost }
    {
        self.addresses.pop()
    }

    // No address is noted, and none was let go: a domain begins to mark in a phase.
    pub(crate) fn start(&mut self)
        ensures items { self.new.items ≡ [] }
        ensures lost { self.new.lost ≡ false }
    {
        self.addresses.clear();
        self.lost = false;
    }

    // Lets all addresses go.
    pub(crate) fn clear(&mut self)
        ensures items { self.new.items ≡ [] }
        ensures lost { self.new.lost ≡ true }
    {
        self.addresses.clear();
        self.lost = true;
    }

    // Whether an address may have been let go since the start.
    pub(crate) fn has_lost(&self) -> bool
        ensures { result ≡ self.now.lost }
    {
        self.lost
    }
}

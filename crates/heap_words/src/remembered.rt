//! Lists with room that is reserved at the start, among them the remembered set of a domain, and queues.
ghost use Rattle.std.specs.List.{swap_remove};
ghost use Rattle.std.specs.Prelude.{◌≡◌, ◌<◌, ◌≤◌, ◌+◌, ◌-◌, ◌++◌, ◌∷◌, [], IfOk, Some, length, slice_get};

mod queue;

pub use queue::BoundedQueue;
use std::alloc::{AllocError, Global};
use std::marker::Model;

/// A list whose memory is all taken when it is made. Contracts see its items, and how many more fit.
#[derive(Drop)]
pub struct BoundedList<T> {
    items: Vec<T>,
}

/// The fields of the major heap that may hold a young reference, in the order in which they were
/// remembered ("Retrofitting Parallelism onto OCaml", section 3.3).
pub type Remembered = BoundedList<u32>;

impl<T> Model for BoundedList<T> {
    ghost use Rattle.std.specs.Prelude.{◌-◌, ◌≤◌, vec_len, vec_capacity};
    ghost use Rattle.heap_words.specs.Remembered.Bounded.{Bounded};

    ghost Value = { Bounded T };

    ghost view = { λ r. record { items = r.items.items; room = vec_capacity r.items - vec_len r.items } };

    ghost invariant = { λ r. vec_len r.items ≤ vec_capacity r.items };
}

impl<T: Copy> BoundedList<T> {
    /// An empty list with room for `room` items, all of which is taken here. Fails for want of
    /// memory alone.
    pub fn make(alloc: Global, room: usize) -> Result<BoundedList<T>, AllocError>
        ensures empty { IfOk result (λ r. r.items ≡ []) }
        ensures room { IfOk result (λ r. r.room ≡ room) }
    {
        let items = Vec::with_capacity(alloc, room)?;
        Ok(BoundedList { items })
    }

    /// How many more items fit.
    pub fn room(&self) -> usize
        ensures { result ≡ self.now.room }
    {
        self.items.capacity() - self.items.len()
    }

    /// How many items there are.
    pub fn len(&self) -> usize
        ensures { result ≡ length self.now.items }
    {
        self.items.len()
    }

    /// The `i`-th item, from 0 on.
    pub fn get(&self, i: usize) -> T
        requires { i < length self.now.items }
        ensures { Some result ≡ slice_get self.now.items i }
    {
        self.items[i]
    }

    /// Appends an item. Takes no memory.
    pub fn push(&mut self, item: T)
        requires { 1 ≤ self.old.room }
        ensures items { self.new.items ≡ self.old.items ++ item ∷ [] }
        ensures room { self.new.room + 1 ≡ self.old.room }
    {
        self.items.push_reserved(item);
    }

    /// Takes the `i`-th item out. The last one takes its place, and there is room for one more.
    pub fn swap_remove(&mut self, i: usize) -> T
        requires { i < length self.old.items }
        ensures item { Some result ≡ slice_get self.old.items i }
        ensures items { self.new.items ≡ swap_remove self.old.items i result }
        ensures room { self.new.room ≡ self.old.room + 1 }
    {
        self.items.swap_remove(i)
    }

    /// Forgets all items, which makes room for as many more.
    pub fn clear(&mut self)
        ensures items { self.new.items ≡ [] }
        ensures room { self.new.room ≡ self.old.room + length self.old.items }
    {
        self.items.clear();
    }
}

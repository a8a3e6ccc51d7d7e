//! Queues with room that is reserved at the start.
ghost use Rattle.std.specs.Prelude.{◌≡◌, ◌<◌, ◌≤◌, ◌+◌, ◌++◌, ◌∷◌, [], IfOk, Some, drop, length, remove, slice_get, slice_set, take};
ghost use Rattle.std.specs.VecDeque.{deque_len, deque_capacity};

use std::alloc::{AllocError, Global};
use std::collections::VecDeque;
use std::marker::Model;

/// A queue whose memory is all taken when it is made. Items come to its end, and may be taken from
/// any place, the others staying in their order.
#[derive(Drop)]
pub struct BoundedQueue<T> {
    items: VecDeque<T>,
    // So many of the last items stand before the others.
    turned: usize,
}

impl<T> Model for BoundedQueue<T> {
    ghost use Rattle.std.specs.Prelude.{◌-◌, ◌≤◌, ◌++◌, drop, take};
    ghost use Rattle.std.specs.VecDeque.{deque_len, deque_capacity};
    ghost use Rattle.heap_words.specs.Remembered.Bounded.{Bounded};

    ghost Value = { Bounded T };

    ghost view = { λ q. record { items = drop q.turned q.items.items ++ take q.turned q.items.items; room = deque_capacity q.items - deque_len q.items } };

    ghost invariant = { λ q. (deque_len q.items ≤ deque_capacity q.items) × (q.turned ≤ deque_len q.items) };
}

// Where the `i`-th of so many items stands, of which so many of the last stand before the others.
fn place_of(len: usize, turned: usize, i: usize) -> usize
    requires inside { i < len }
    requires turned { turned ≤ len }
    ensures below { result < len }
    ensures first { i + turned < len → result ≡ turned + i }
    ensures last { len ≤ i + turned → result + len ≡ i + turned }
{
    let first = len - turned;
    if i < first { turned + i } else { i - first }
}

// Has so many of the last items stand before the others, where so many stand there now.
fn turn<T>(items: &mut VecDeque<T>, from: usize, to: usize)
    requires from { from ≤ deque_len items.old }
    requires to { to ≤ deque_len items.old }
    ensures same { drop to items.new.items ++ take to items.new.items ≡ drop from items.old.items ++ take from items.old.items }
    ensures len { deque_len items.new ≡ deque_len items.old }
    ensures capacity { deque_capacity items.new ≡ deque_capacity items.old }
{
    if from < to {
        items.rotate_right(to - from);
    } else {
        items.rotate_left(from - to);
    }
}

impl<T: Copy> BoundedQueue<T> {
    /// An empty queue with room for `room` items, all of which is taken here. Fails for want of
    /// memory alone.
    pub fn make(alloc: Global, room: usize) -> Result<BoundedQueue<T>, AllocError>
        ensures empty { IfOk result (λ q. q.items ≡ []) }
        ensures room { IfOk result (λ q. q.room ≡ room) }
    {
        let items = VecDeque::with_capacity(alloc, room)?;
        Ok(BoundedQueue { items, turned: 0 })
    }

    /// How many more items fit.
    pub fn room(&self) -> usize
        ensures { result ≡ self.now.room }
    {
        self.items.capacity() - self.items.len()
    }

    /// How many items there are.
    pub fn len(&self) -> usize
        ensures { result ≡ length self.now.items }
    {
        self.items.len()
    }

    /// The `i`-th item, from 0 on.
    pub fn get(&self, i: usize) -> T
        requires { i < length self.now.items }
        ensures { Some result ≡ slice_get self.now.items i }
    {
        self.items[place_of(self.items.len(), self.turned, i)]
    }

    /// Puts an item in the place of the `i`-th.
    pub fn set(&mut self, i: usize, item: T)
        requires { i < length self.old.items }
        ensures items { self.new.items ≡ slice_set self.old.items i item }
        ensures room { self.new.room ≡ self.old.room }
    {
        turn(&mut self.items, self.turned, 0);
        self.turned = 0;
        self.items[i] = item;
    }

    /// Appends an item. Takes no memory.
    pub fn push(&mut self, item: T)
        requires { 1 ≤ self.old.room }
        ensures items { self.new.items ≡ self.old.items ++ item ∷ [] }
        ensures room { self.new.room + 1 ≡ self.old.room }
    {
        turn(&mut self.items, self.turned, 0);
        self.turned = 0;
        self.items.push_back_reserved(item);
    }

    /// Takes the `i`-th item out, and there is room for one more. The shorter side moves, so the
    /// first item is taken at once.
    pub fn remove(&mut self, i: usize) -> T
        requires { i < length self.old.items }
        ensures item { Some result ≡ slice_get self.old.items i }
        ensures items { self.new.items ≡ remove self.old.items i }
        ensures room { self.new.room ≡ self.old.room + 1 }
    {
        if i == 0 {
            turn(&mut self.items, self.turned, 0);
            self.turned = 0;
            let Some(item) = self.items.pop_front() else {
                unreachable!()
            };
            return item;
        }
        let behind = self.items.len() - 1 - i;
        turn(&mut self.items, self.turned, behind);
        self.turned = behind;
        let Some(item) = self.items.pop_back() else {
            unreachable!()
        };
        item
    }

    /// Forgets all items, which makes room for as many more.
    pub fn clear(&mut self)
        ensures items { self.new.items ≡ [] }
        ensures room { self.new.room ≡ self.old.room + length self.old.items }
    {
        self.items.clear();
        self.turned = 0;
    }
}

//! The deques of hints, one for each domain.
ghost use Rattle.std.specs.Prelude.{◌≡◌, ◌<◌, ◌+◌, ℕ, length, IfOk, vec_len, slice_index_or};
ghost use Rattle.crossbeam_deque.specs.Handles.{worker_flavor};

use crate::darkening::Hint;
use crossbeam_deque::protocol::Free;
use crossbeam_deque::{Stealer, Worker};
use std::alloc::{AllocError, Global};

// How many hints a deque has room for at first.
pub(crate) const HINTS_ROOM: usize = 4096;

// A domain's own deque.
pub(crate) type Own = Worker<Hint, Global>;

// That of another domain, from which a hint may be taken.
pub(crate) type Other = Stealer<Hint, Global>;

// A deque for each domain.
pub(crate) fn make_workers(alloc: Global, domains: u32) -> Result<Vec<Own>, AllocError>
    ensures { IfOk result (λ v. (vec_len v ≡ domains) × ((k : ℕ) (d : _) → k < domains → worker_flavor (slice_index_or v.items k d) ≡ 1)) }
{
    let mut workers = Vec::new(alloc);
    for _domain in 0..domains {
        workers.push(Own::new_lifo(alloc, HINTS_ROOM)?)?;
    }
    Ok(workers)
}

// The deques of all domains but one, in order.
pub(crate) fn others_of(
    alloc: Global,
    workers: &[Own],
    domain: usize,
) -> Result<Vec<Other>, AllocError>
    requires { domain < length workers.now }
    ensures { IfOk result (λ v. vec_len v + 1 ≡ length workers.now) }
{
    let mut others = Vec::new(alloc);
    'below: for worker in &workers[..domain] {
        others.push(worker.stealer()?)?;
    }
    'above: for worker in &workers[domain + 1..] {
        others.push(worker.stealer()?)?;
    }
    Ok(others)
}

// Notes a hint in the domain's own deque. Where there is no memory for one more it is let go.
pub(crate) fn push_hint(own: &mut Own, hint: Hint)
    requires lifo { worker_flavor own.old ≡ 1 }
    ensures lifo { worker_flavor own.new ≡ 1 }
{
    let _ = own.push_as::<Free>(hint);
}

// Takes the hint of the domain's own deque that was noted last.
pub(crate) fn pop_hint(own: &mut Own) -> Option<Hint>
    requires lifo { worker_flavor own.old ≡ 1 }
    ensures lifo { worker_flavor own.new ≡ 1 }
{
    own.pop()
}

// Whether the domain's own deque holds no hint.
pub(crate) fn holds_none(own: &Own) -> bool {
    own.is_empty()
}

// Takes the hint of another domain that was noted first. None where it has none, or where another
// domain has taken that one meanwhile.
pub(crate) fn steal_hint(other: &Other) -> Option<Hint> {
    other.steal().success()
}

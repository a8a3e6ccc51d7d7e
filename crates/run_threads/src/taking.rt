//! A trace is taken out of a list, and put back in its place.
ghost use Rattle.std.specs.Prelude.{◌≡◌, ◌+◌, ◌<◌, ◌≤◌, length, vec_capacity};
ghost use Rattle.run_threads.specs.Taking.{IsTakenOut, IsPutBack};

// Takes the trace at this place out. The last one moves there.
pub(crate) fn take_out<T: Drop>(traces: &mut Vec<T>, at: usize) -> T
    requires { at < length traces.old.items }
    ensures taken { IsTakenOut traces.old.items traces.new.items at result }
    ensures room { length traces.new.items < vec_capacity traces.new }
    ensures capacity { vec_capacity traces.new ≡ vec_capacity traces.old }
{
    traces.swap_remove(at)
}

// Puts a trace back where it was taken out.
pub(crate) fn put_back<T: Drop>(traces: &mut Vec<T>, at: usize, trace: T)
    requires inside { at ≤ length traces.old.items }
    requires room { length traces.old.items < vec_capacity traces.old }
    ensures back { IsPutBack traces.old.items traces.new.items at trace }
    ensures capacity { vec_capacity traces.new ≡ vec_capacity traces.old }
{
    let last = traces.len();
    traces.push_reserved(trace);
    traces.swap(at, last);
}

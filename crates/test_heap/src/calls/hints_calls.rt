//! What waits until blocks are marked.
use crate::calls::fixtures::same;
use gc_mark::Hints;
use std::test::Fail;

// What waits for a block is woken where it is marked, once, and not before. The row of a block may be another's too.
#[test]
fn what_waits_is_woken(rt: HostRuntime) -> Result<(), Fail> {
    let mut hints = Hints::make(rt.alloc(), 1, 3)?.pop().ok_or("no deck")?;
    hints.start_waiting(3);
    hints.look_at(2);
    hints.wait_for(4097);
    same(&rt, hints.next_woken(), None);
    hints.wake(4097);
    same(
        &rt,
        (hints.next_woken(), hints.next_woken()),
        (Some(2), None),
    );
    hints.wait_for(4097);
    hints.start_waiting(3);
    hints.wake(4097);
    same(&rt, hints.next_woken(), None);
    Ok(())
}

//! A remembered set that fills, and is emptied.
use crate::words::same::same;
use heap_words::remembered::Remembered;
use std::test::Fail;

#[test]
fn fills_and_empties(rt: HostRuntime) -> Result<(), Fail> {
    let mut set = Remembered::make(rt.alloc(), 2)?;
    same(&rt, set.len(), 0);
    same(&rt, set.room(), 2);
    set.push(7);
    set.push(9);
    same(&rt, set.room(), 0);
    same(&rt, (set.get(0), set.get(1)), (7, 9));
    set.clear();
    same(&rt, set.len(), 0);
    same(&rt, set.room(), 2);
    Ok(())
}

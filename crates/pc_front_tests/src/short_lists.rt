//! Short lists that need no memory of their own, and longer ones.

use pc_short::ShortSeq;
use std::test::Fail;

#[test]
fn pushed_past_its_own_room(rt: HostRuntime) -> Result<(), Fail> {
    let mut list: ShortSeq<u32, 2> = ShortSeq::new(rt.alloc());
    for item in [3, 1, 4] {
        list.push(item)?;
    }
    assert_eq!(rt; list.len(), 3);
    assert_eq!(rt; list.get(2).copied(), Some(4));
    assert_eq!(rt; list.get(3).copied(), None);
    assert_eq!(rt; list.as_slice(), [3, 1, 4].as_slice());
    Ok(())
}

#[test]
fn copied_and_made_with_room(rt: HostRuntime) -> Result<(), Fail> {
    let short: ShortSeq<u32, 4> = ShortSeq::from_slice(rt.alloc(), &[5, 9])?;
    assert_eq!(rt; short.as_slice(), [5, 9].as_slice());
    let long: ShortSeq<u32, 1> = ShortSeq::from_slice(rt.alloc(), &[2, 6, 5])?;
    assert_eq!(rt; long.as_slice(), [2, 6, 5].as_slice());
    let mut list: ShortSeq<Option<u32>, 2> = ShortSeq::with_capacity(rt.alloc(), 5)?;
    assert_eq!(rt; list.len(), 0);
    list.push(Some(7))?;
    assert_eq!(rt; list.as_slice(), [Some(7)].as_slice());
    Ok(())
}

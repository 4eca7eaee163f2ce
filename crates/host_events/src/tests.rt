use super::*;
use pv_words::HostRefusal;
use std::test::Fail;

#[test]
fn waits_in_turn(rt: HostRuntime) -> Result<(), Fail> {
    let mut queue = Queue::new(rt.alloc())?;
    assert_eq!(rt; queue.oldest(), None);
    for event in 0..64 {
        assert_eq!(rt; queue.push(event), Ok(()));
    }
    assert_eq!(rt; queue.push(64), Err(HostRefusal::Full));
    assert_eq!(rt; queue.oldest(), Some(0));
    queue.drop_oldest();
    assert_eq!(rt; queue.push(65), Ok(()));
    for event in 1..64 {
        assert_eq!(rt; queue.oldest(), Some(event));
        queue.drop_oldest();
    }
    assert_eq!(rt; queue.oldest(), Some(65));
    queue.clear();
    assert_eq!(rt; queue.oldest(), None);
    queue.drop_oldest();
    assert_eq!(rt; queue.oldest(), None);
    Ok(())
}

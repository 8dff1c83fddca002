//! A queue and a writer over the world of rows, without a job.
use crate::{WriteQueue, Writer};
use pfc_memory::RowWorld;
use std::test::Fail;

type Queue = WriteQueue<RowWorld>;

#[test]
fn an_empty_queue_gives_nothing(rt: HostRuntime) -> Result<(), Fail> {
    for capacity in [0, 3] {
        let mut queue = Queue::new(rt.alloc(), capacity)?;
        assert_eq!(rt; queue.capacity(), capacity);
        assert!(rt; queue.is_empty());
        assert!(rt; queue.take().is_none());
    }
    Ok(())
}

#[test]
fn a_writer_at_rest_stays_so(rt: HostRuntime) -> Result<(), Fail> {
    let mut queue = Queue::new(rt.alloc(), 1)?;
    let mut writer = Writer::new();
    assert!(rt; !writer.take(&mut queue));
    writer.go_on();
    assert!(rt; writer.phase().is_none());
    assert!(rt; writer.instance().is_none());
    Ok(())
}

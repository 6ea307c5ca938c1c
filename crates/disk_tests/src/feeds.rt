//! The ends of the rings of two disks.

use disk_feeds::DiskFeeds;

#[test]
fn an_end_is_handed_out_once(rt: HostRuntime) {
    let Ok(mut feeds) = DiskFeeds::new(rt.alloc(), &[2, 1], 2, 4, 8) else {
        panic!(rt; "no room");
    };
    assert_eq!(rt; feeds.len(), 2);
    assert_eq!(rt; feeds.channels(0), 2);
    assert!(rt; feeds.block(0).is_none());
    assert!(rt; feeds.block(2).is_none());
    assert!(rt; feeds.producer(1).is_some());
    assert!(rt; feeds.producer(1).is_none());
}

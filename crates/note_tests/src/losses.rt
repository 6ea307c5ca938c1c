use lost_blocks::{Losses, Owner};

#[test]
fn the_first_cycle_of_each_recorder_is_noted(rt: HostRuntime) {
    let mut losses = Losses::new();
    assert!(rt; !losses.hear(b"cycle 9 1 stopped 0 -".as_slice()));
    assert!(rt; losses.hear(b"recorder 0 7 0".as_slice()));
    assert!(rt; !losses.has_any());
    assert!(rt; losses.hear(b"recorder 3 5 2".as_slice()));
    assert!(rt; losses.hear(b"overrun 3 6 5 0".as_slice()));
    assert!(rt; losses.hear(b"overrun 3 7 5 0".as_slice()));
    assert!(rt; losses.has_any());
    assert_eq!(rt; told_of(&losses, Owner::Recorder(0)), (7, 0, 0));
    assert_eq!(rt; told_of(&losses, Owner::Recorder(1)), (0, 0, 0));
    assert_eq!(rt; told_of(&losses, Owner::Recorder(3)), (5, 2, 6));
    assert_eq!(rt; told_of(&losses, Owner::Disk(3)), (0, 0, 0));
}

#[test]
fn the_first_underrun_of_each_disk_is_noted(rt: HostRuntime) {
    let mut losses = Losses::new();
    assert!(rt; losses.hear(b"recorder 1 9 0".as_slice()));
    assert!(rt; losses.hear(b"disk 0 7 0".as_slice()));
    assert!(rt; !losses.has_any());
    assert!(rt; losses.hear(b"disk 1 5 3".as_slice()));
    assert!(rt; losses.hear(b"underrun 1 6 4 4".as_slice()));
    assert!(rt; losses.hear(b"underrun 1 8 5 5".as_slice()));
    assert!(rt; losses.has_any());
    assert_eq!(rt; told_of(&losses, Owner::Disk(0)), (7, 0, 0));
    assert_eq!(rt; told_of(&losses, Owner::Disk(1)), (5, 3, 6));
    assert_eq!(rt; told_of(&losses, Owner::Recorder(1)), (9, 0, 0));
}

#[test]
fn nothing_behind_the_fourth_is_noted(rt: HostRuntime) {
    let mut losses = Losses::new();
    assert!(rt; losses.hear(b"recorder 4 5 2".as_slice()));
    assert!(rt; losses.hear(b"overrun 4 6 5 0".as_slice()));
    assert!(rt; losses.hear(b"disk 4 5 2".as_slice()));
    assert!(rt; losses.hear(b"underrun 4 6 5 5".as_slice()));
    assert!(rt; !losses.has_any());
    assert_eq!(rt; told_of(&losses, Owner::Recorder(4)), (0, 0, 0));
    assert_eq!(rt; told_of(&losses, Owner::Disk(4)), (0, 0, 0));
}

fn told_of(losses: &Losses, owner: Owner) -> (u64, u64, u64) {
    let stream = losses.of(owner);
    (stream.blocks, stream.missed, stream.first)
}

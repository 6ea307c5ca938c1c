use bitflags::Flags;
use jack_types::{Disks, Event, Format, PortFlags, Recorders, Taps, Way};

#[test]
fn taps_are_read_at_their_edges(rt: HostRuntime) {
    assert!(rt; Taps::read(&[]).is_none());
    assert!(rt; Taps::read(&[1; 33]).is_none());
    assert!(rt; Taps::read(&[-32769]).is_none());
    assert!(rt; Taps::read(&[0, 32768]).is_none());
    assert!(rt; Taps::read(&[7; 32]).is_some());
    let Some(taps) = Taps::read(&[-32768, 32767]) else {
        assert!(rt; false);
        return;
    };
    assert_eq!(rt; taps.as_slice(), [-32768, 32767].as_slice());
}

#[test]
fn flags_are_those_of_jack(rt: HostRuntime) {
    assert_eq!(rt; PortFlags::of(Way::In).bits(), 0x1);
    assert_eq!(rt; PortFlags::of(Way::Out).bits(), 0x2);
    assert_eq!(rt; PortFlags::capture().bits(), 0x16);
    assert_eq!(rt; PortFlags::playback().bits(), 0x15);
}

#[test]
fn what_is_held_is_told(rt: HostRuntime) {
    let event = Event::new(5, &[0x90, 60, 100]);
    assert_eq!(rt; (event.offset, event.size), (5, 3));
    assert_eq!(rt; event.as_slice(), [0x90, 60, 100].as_slice());
    assert_eq!(rt; event.bytes.0[3], 0);
    assert_eq!(rt; Disks::of(&[2, 1]).as_slice(), [2, 1].as_slice());
    let format = Format {
        rate: 48000,
        channels: 2,
        bits: 24,
    };
    assert!(rt; Recorders::of(&[format]).as_slice() == [format].as_slice());
}

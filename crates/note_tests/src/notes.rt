use jack_types::Refusal;
use refused_calls::Notes;

#[test]
fn refused_calls_are_noted_among_all(rt: HostRuntime) {
    let mut notes = Notes::new();
    assert!(rt; notes.hear(b"report 1".as_slice()));
    assert!(rt; notes.hear(b"call 0 1 ok 1".as_slice()));
    assert!(rt; notes.hear(b"call 4 7 refused 15 Inactive".as_slice()));
    assert!(rt; notes.hear(b"call 0 2 latency 0 64".as_slice()));
    assert!(rt; !notes.hear(b"cycle 1 1 stopped 0 -".as_slice()));
    assert_eq!(rt; notes.calls(), 3);
    assert_eq!(rt; notes.refused(), 1);
    assert_eq!(rt; notes.first().len(), 1);
    assert_eq!(rt; notes.first()[0].lane, 4);
    assert_eq!(rt; notes.first()[0].index, 7);
    assert!(rt; notes.first()[0].refusal == Refusal::Inactive);
}

#[test]
fn no_more_than_twenty_are_noted(rt: HostRuntime) {
    let mut notes = Notes::new();
    for _ in 0..25 {
        assert!(rt; notes.hear(b"call 1 7 refused 21 InUse".as_slice()));
    }
    assert_eq!(rt; notes.first().len(), 20);
    assert_eq!(rt; notes.refused(), 25);
}

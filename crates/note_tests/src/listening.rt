use host_memory::MemorySink;
use jack_host::Sink;
use jack_types::Refusal;
use lost_blocks::Owner;
use report_listener::ListeningSink;

#[test]
fn calls_are_noted_up_to_the_first_line_of_another_kind(rt: HostRuntime) {
    let mut sink = ListeningSink::new(MemorySink::new(rt.alloc()));
    let title = b"report 1\n".as_slice();
    let calls = b"call 0 1 ok 1\ncall 0 2 refused 15 Inactive\n".as_slice();
    let rest = b"cycle 1 1 stopped 0 -\ncall 0 3 refused 1 NoClient\nend\n".as_slice();
    assert!(rt; sink.put(title).is_ok());
    assert!(rt; sink.put(calls).is_ok());
    assert!(rt; sink.put(rest).is_ok());
    assert_eq!(rt; sink.notes().calls(), 2);
    assert_eq!(rt; sink.notes().refused(), 1);
    assert_eq!(rt; sink.notes().first().len(), 1);
    assert!(rt; sink.notes().first()[0].refusal == Refusal::Inactive);
    assert_eq!(rt; sink.notes().first()[0].index, 2);
}

#[test]
fn recorders_and_disks_are_noted_behind_the_cycles(rt: HostRuntime) {
    let mut sink = ListeningSink::new(MemorySink::new(rt.alloc()));
    assert!(rt; sink.put(b"report 1\n".as_slice()).is_ok());
    assert!(rt;
        sink.put(b"cycle 1 0 stopped 0 -\ncycle 2 0 stopped 0 -\n".as_slice())
            .is_ok()
    );
    assert!(rt; sink.put(b"meter recorder 7\n".as_slice()).is_ok());
    assert!(rt; sink.put(b"recorder 1 1 1\n".as_slice()).is_ok());
    assert!(rt; sink.put(b"overrun 1 2 1 0\n".as_slice()).is_ok());
    assert!(rt; sink.put(b"disk 0 4 2\n".as_slice()).is_ok());
    assert!(rt; sink.put(b"underrun 0 3 1 1\n".as_slice()).is_ok());
    assert!(rt; sink.put(b"underrun 0 5 2 2\n".as_slice()).is_ok());
    assert!(rt; sink.put(b"end\n".as_slice()).is_ok());
    assert_eq!(rt; sink.notes().calls(), 0);
    assert!(rt; sink.losses().has_any());
    assert_eq!(rt; sink.losses().of(Owner::Recorder(1)).first, 2);
    assert_eq!(rt; sink.losses().of(Owner::Disk(0)).missed, 2);
    assert_eq!(rt; sink.losses().of(Owner::Disk(0)).first, 3);
}

#[test]
fn a_put_that_fails_is_not_heard(rt: HostRuntime) {
    let mut inner = MemorySink::new(rt.alloc());
    assert!(rt; inner.refuse(1).is_ok());
    let mut sink = ListeningSink::new(inner);
    assert!(rt;
        sink.put(b"call 0 1 refused 1 NoClient\n".as_slice())
            .is_err()
    );
    assert_eq!(rt; sink.notes().calls(), 0);
}

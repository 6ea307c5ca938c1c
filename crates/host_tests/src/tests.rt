//! What is read, written and put in memory, and the gate.

use host_memory::{MemorySink, MemorySource, MemoryStore};
use jack_host::{Failed, FreeGate, Gate, Sink, Source, Store};

#[test]
fn a_refused_read_takes_no_byte(rt: HostRuntime) {
    let bytes = b"abc".to_vec(rt.alloc()).expect(&rt, "memory");
    let mut source = MemorySource::new(rt.alloc(), bytes);
    assert!(rt; source.refuse(2).is_ok());
    let mut piece = [0; 2];
    assert_eq!(rt; source.read(&mut piece), Ok(2));
    assert_eq!(rt; source.read(&mut piece), Err(Failed));
    assert_eq!(rt; source.as_bytes(), b"c".as_slice());
}

#[test]
fn a_refused_write_adds_nothing(rt: HostRuntime) {
    let mut store = MemoryStore::new(rt.alloc());
    assert!(rt; store.refuse(2).is_ok());
    assert_eq!(rt; store.write_at(0, b"abc"), Ok(()));
    assert_eq!(rt; store.write_at(0, b"x"), Err(Failed));
    assert_eq!(rt; store.as_bytes(), b"abc".as_slice());
}

#[test]
fn a_refused_put_adds_nothing(rt: HostRuntime) {
    let mut sink = MemorySink::new(rt.alloc());
    assert!(rt; sink.refuse(1).is_ok());
    assert_eq!(rt; sink.put(b"a"), Err(Failed));
    assert_eq!(rt; sink.put(b"b"), Ok(()));
    assert_eq!(rt; sink.as_bytes(), b"b".as_slice());
}

#[test]
fn the_free_gate_holds_nobody() {
    let gate = FreeGate;
    gate.before_cycle(1);
    gate.before_call(0, 1);
    gate.after_call(0, 1);
    gate.before_client(0, 0);
    gate.before_block(0);
    gate.before_turn(0);
}

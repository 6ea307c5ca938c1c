//! What is written is read again.

use crate::folder::{Folder, Step};
use host_files::WriterSink;
use jack_host::Sink;
use std::alloc::Alloc;
use std::fs;
use std::fs::{File, Files};
use std::process::Abort;

#[test]
fn real_files_keep_what_was_written(rt: HostRuntime) {
    Folder::new(&rt, rt.alloc(), 1).walk(&[
        Step::Make("made"),
        Step::Put(0, "hallo"),
        Step::Put(1, "e"),
        Step::Done,
        Step::Open("made"),
        Step::Reads("hello", 2),
        Step::Back(0),
        Step::Removed("made"),
        Step::CannotOpen("made"),
    ]);
}

#[test]
fn a_file_without_a_room_moves_the_bytes_of_each_call(rt: HostRuntime) {
    Folder::new(&rt, rt.alloc(), 2).walk(&[
        Step::Written("roomy", "hey"),
        Step::Open("roomy"),
        Step::Open("roomy"),
        Step::Make("bare"),
        Step::Put(0, "hallo"),
        Step::Put(5, "!"),
        Step::Put(1, "e"),
        Step::Holds("bare", "hello!"),
        Step::Done,
        Step::Open("bare"),
        Step::Open("bare"),
        Step::Back(2),
        Step::Reads("hello!", 4),
        Step::Back(2),
        Step::Back(1),
        Step::Back(0),
        Step::Removed("roomy"),
        Step::Removed("bare"),
    ]);
}

// A file of 80,001 bytes: such a piece eight times, and then a byte at the beginning, in the middle and at the end.
fn write_long<R: Alloc + Files<File = File> + Abort>(folder: &mut Folder<'_, R>, piece: &[u8]) {
    folder.walk(&[Step::Make("long")]);
    for k in 0..8 {
        folder.put(10_000 * k, piece);
    }
    folder.walk(&[
        Step::Put(0, "a"),
        Step::Put(40_000, "b"),
        Step::Put(80_000, "c"),
        Step::Done,
    ]);
}

#[test]
fn a_long_file_is_written_in_order(rt: HostRuntime) {
    let piece = vec![in rt.alloc(); 7u8; 10_000].expect(&rt, "memory");
    let mut folder = Folder::new(&rt, rt.alloc(), 1);
    write_long(&mut folder, &piece);
    folder.walk(&[Step::Open("long")]);
    let bytes = folder.read_by(2_000);
    folder.walk(&[Step::Back(0), Step::Removed("long")]);
    assert_eq!(rt; bytes.len(), 80_001);
    assert_eq!(rt; bytes.iter().filter(|byte| **byte == 7).count(), 79_998);
    let others = [bytes.first(), bytes.get(40_000), bytes.get(80_000)];
    assert_eq!(rt; others, [Some(&b'a'), Some(&b'b'), Some(&b'c')]);
}

#[test]
fn a_writer_gets_each_put(rt: HostRuntime) {
    let mut sink = WriterSink::new(fs::create(&rt, "put").expect(&rt, "made"));
    sink.put(b"one ").expect(&rt, "put");
    sink.put(b"two").expect(&rt, "put");
    let found = fs::read_to_string(&rt, "put").expect(&rt, "read");
    fs::remove_file(&rt, "put").expect(&rt, "removed");
    assert_eq!(rt; found.as_str(), "one two");
}

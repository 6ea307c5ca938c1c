//! What stays in a file, and what keeps nothing.

use crate::folder::{Folder, Step};
use host_files::FailureKind;

#[test]
fn a_file_keeps_its_bytes_until_the_first_is_written_out(rt: HostRuntime) {
    Folder::new(&rt, rt.alloc(), 3).walk(&[
        Step::Written("kept", "old bytes"),
        Step::Make("kept"),
        Step::Put(0, "new"),
        Step::Holds("kept", "old bytes"),
        Step::Done,
        Step::Holds("kept", "new"),
        Step::Removed("kept"),
    ]);
}

#[test]
fn a_file_that_was_not_begun_is_given_up_as_it_was(rt: HostRuntime) {
    Folder::new(&rt, rt.alloc(), 2).walk(&[
        Step::Written("given_up", "old bytes"),
        Step::Make("given_up"),
        Step::Put(0, "new"),
        Step::GiveUp,
        Step::Holds("given_up", "old bytes"),
        Step::NothingFailed,
        Step::Make("given_up"),
        Step::Put(0, "new"),
        Step::Done,
        Step::Holds("given_up", "new"),
        Step::Removed("given_up"),
    ]);
}

#[test]
fn a_file_that_was_begun_is_given_up_with_what_waits(rt: HostRuntime) {
    Folder::new(&rt, rt.alloc(), 1).walk(&[
        Step::Written("begun", "old bytes"),
        Step::Make("begun"),
        Step::Put(0, "hallo"),
        Step::Put(1, "e"),
        Step::Put(5, "!"),
        Step::Holds("begun", "hello"),
        Step::GiveUp,
        Step::Holds("begun", "hello!"),
        Step::NothingFailed,
        Step::Removed("begun"),
    ]);
}

#[test]
fn a_file_that_nothing_was_written_to_is_empty(rt: HostRuntime) {
    Folder::new(&rt, rt.alloc(), 1).walk(&[
        Step::Written("emptied", "old bytes"),
        Step::Make("emptied"),
        Step::Holds("emptied", "old bytes"),
        Step::Done,
        Step::Holds("emptied", ""),
        Step::Removed("emptied"),
    ]);
}

#[test]
fn what_keeps_nothing_is_written_by_any_name(rt: HostRuntime) {
    Folder::new(&rt, rt.alloc(), 1).walk(&[
        Step::Open("/dev/null"),
        Step::Make("/dev/null"),
        Step::Put(0, "away"),
        Step::Done,
        Step::Back(0),
        Step::NothingFailed,
        Step::Make("/dev/full"),
        Step::Put(0, "away"),
        Step::CannotDo("/dev/full", FailureKind::Writing),
    ]);
}

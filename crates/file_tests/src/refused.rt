//! Files that are not made, since bytes would be lost.

use crate::folder::{Folder, Step};
use host_files::FailureKind;

#[test]
fn an_input_is_not_made_by_another_name(rt: HostRuntime) {
    Folder::new(&rt, rt.alloc(), 2).walk(&[
        Step::Written("input", "capture"),
        Step::Open("input"),
        Step::CannotMake("./input", FailureKind::IsInput),
        Step::Back(0),
        Step::CannotMake(".//input", FailureKind::IsInput),
        Step::Holds("input", "capture"),
        Step::Removed("input"),
    ]);
}

#[test]
fn an_output_is_not_made_twice(rt: HostRuntime) {
    Folder::new(&rt, rt.alloc(), 2).walk(&[
        Step::Make("output"),
        Step::Linked("output", "link"),
        Step::CannotMake("link", FailureKind::IsOutput),
        Step::Done,
        Step::Make("link"),
        Step::Done,
        Step::Removed("output"),
        Step::Removed("link"),
    ]);
}

#[test]
fn a_file_that_another_writes_is_not_made(rt: HostRuntime) {
    let mut one = Folder::new(&rt, rt.alloc(), 1);
    let mut other = Folder::new(&rt, rt.alloc(), 1);
    one.walk(&[Step::Make("held")]);
    other.walk(&[Step::CannotMake("held", FailureKind::InUse)]);
    one.walk(&[Step::Done]);
    other.walk(&[Step::Make("held"), Step::Done, Step::Removed("held")]);
}

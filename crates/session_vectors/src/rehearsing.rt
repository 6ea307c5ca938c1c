//! A rehearsal whose summary can't be put out.

use crate::running::run;
use host_memory::{MemoryHost, MemorySink};
use jack_control::Status;
use std::test::Fail;

#[test]
fn a_sink_that_fails_has_no_line(rt: HostRuntime) -> Result<(), Fail> {
    let mut host = MemoryHost::new(rt.alloc());
    let mut out = MemorySink::new(rt.alloc());
    assert!(rt; out.refuse(1).is_ok());
    let words = ["rehearse", "7"];
    let status = run(&rt, &words, &mut host, &mut out, Vec::new(rt.alloc()))?;
    assert!(rt; status == Status::WriteFault);
    assert!(rt; out.as_bytes().is_empty());
    Ok(())
}

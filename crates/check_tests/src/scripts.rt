//! Scripts of tests, read.

use session_script::Script;
use std::alloc::Global;
use std::process::Abort;

pub(crate) fn script_of(rt: &impl Abort, alloc: Global, text: &str) -> Script {
    match Script::read(alloc, text.as_bytes()) {
        Ok(script) => script,
        Err(_) => panic!(rt; "a script"),
    }
}

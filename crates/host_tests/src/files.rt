//! The files of a host in memory that refuses.

ghost use Rattle.std.specs.Prelude.{◌≡◌};
ghost use Rattle.host_memory.specs.MemoryHost.{host_lent};

use host_memory::MemoryHost;
use jack_host::{Failed, Host, Store};
use jack_types::Memory;
use std::alloc::Global;
use std::process::Abort;

/// What a host refuses of the file that it makes.
#[derive(Clone, Copy)]
enum Refused {
    /// The second write.
    Write,
    /// To close it.
    Closing,
}

fn refuse(host: &mut MemoryHost, refused: Refused) -> Result<(), Memory>
    ensures { host_lent host.new ≡ host_lent host.old }
{
    match refused {
        Refused::Write => host.refuse("p", 2),
        Refused::Closing => host.refuse_done("p"),
    }
}

/// The file is made, is written to twice, and goes back: whether it was done. None where it is given up.
fn write(host: &mut MemoryHost, gives_up: bool) -> Result<Option<bool>, Failed>
    requires { host_lent host.old ≡ 0 }
{
    let mut output = host.make_out("p")?;
    output.write_at(0, b"ab")?;
    let _ = output.write_at(2, b"cd");
    if gives_up {
        host.give_up(output);
        return Ok(None);
    }
    Ok(Some(host.done(output).is_ok()))
}

/// What a host that refuses this keeps of the file, and whether it was done.
fn keeps(rt: &impl Abort, alloc: Global, refused: Refused, done: Option<bool>, bytes: &[u8]) {
    let mut host = MemoryHost::new(alloc);
    assert!(rt; refuse(&mut host, refused).is_ok(), "room for a refusal");
    assert_eq!(rt; write(&mut host, done.is_none()), Ok(done));
    assert_eq!(rt; host.file("p"), Some(bytes));
}

#[test]
fn a_host_in_memory_refuses_as_listed(rt: HostRuntime) {
    let mut host = MemoryHost::new(rt.alloc());
    assert!(rt; host.add("s", b"script").is_ok());
    assert!(rt; host.refuse("s", 0).is_ok());
    assert!(rt; host.open_in("s").is_err());
    assert!(rt; host.open_in("missing").is_err());
}

#[test]
fn an_output_keeps_its_bytes_where_it_is_not_closed(rt: HostRuntime) {
    keeps(&rt, rt.alloc(), Refused::Closing, Some(false), b"abcd");
}

#[test]
fn an_output_that_is_given_up_keeps_its_bytes(rt: HostRuntime) {
    keeps(&rt, rt.alloc(), Refused::Closing, None, b"abcd");
}

#[test]
fn an_output_that_failed_is_not_done(rt: HostRuntime) {
    keeps(&rt, rt.alloc(), Refused::Write, Some(false), b"ab");
}

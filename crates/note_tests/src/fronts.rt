ghost use Rattle.std.specs.Prelude.{◌≡◌, ◌<◌};

use host_listener::{Front, ListeningHost};
use host_memory::MemoryHost;
use jack_host::{Host, Source};
use std::test::Fail;

// What is read of a file at most by one call.
const CHUNK: usize = 4;

// Reads a file through the host to its end, and answers whether it could be opened.
fn read_all<H: Host>(host: &mut H, name: &str) -> bool
    requires { H.lent host.old < 900 }
    ensures { H.lent host.new ≡ H.lent host.old }
{
    let Ok(mut input) = host.open_in(name) else {
        return false;
    };
    let mut chunk = [0u8; CHUNK];
    for _ in 0..10 {
        match input.read(&mut chunk) {
            Ok(count) if count > 0 => (),
            _ => break,
        }
    }
    host.back(input);
    true
}

#[test]
fn the_first_bytes_of_two_files_are_kept(rt: HostRuntime) -> Result<(), Fail> {
    let mut inner = MemoryHost::new(rt.alloc());
    assert!(rt; inner.add("s", b"abcdefghij".as_slice()).is_ok());
    assert!(rt; inner.add("c", b"klmnopqrstu".as_slice()).is_ok());
    assert!(rt; inner.add("d", b"vw".as_slice()).is_ok());
    let mut host = ListeningHost::new(rt.alloc(), inner, 20, 6)?;
    assert!(rt; read_all(&mut host, "s"));
    assert!(rt; read_all(&mut host, "c"));
    assert!(rt; read_all(&mut host, "d"));
    assert!(rt; is_heard(host.front(0), b"abcdefghij".as_slice(), 10));
    assert!(rt; is_heard(host.front(1), b"klmnop".as_slice(), 11));
    assert!(rt; host.front(2).is_none());
    Ok(())
}

// Whether these bytes were kept of a file, of which so many were read.
fn is_heard(front: Option<&Front>, bytes: &[u8], count: u64) -> bool {
    match front {
        Some(front) => front.as_bytes() == bytes && front.count() == count,
        None => false,
    }
}

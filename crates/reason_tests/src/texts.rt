use reason_text::Piece::{Counted, Front, Number, Path, Quoted, Shown, Signed, Text};
use reason_text::Reason;
use std::alloc::AllocError;

#[test]
fn bytes_that_steer_a_terminal_are_shown(rt: HostRuntime) -> Result<(), AllocError> {
    let mut reason = Reason::new(rt.alloc())?;
    reason.tell(&[Shown(b"a\x1b[2J\x7f\xff".as_slice())])?;
    reason.end_line()?;
    assert!(rt; reason.as_bytes() == b"jackd: a\\x1b[2J\\x7f\\xff\n".as_slice());
    Ok(())
}

#[test]
fn each_piece_is_written(rt: HostRuntime) -> Result<(), AllocError> {
    let things = Reason::line(
        rt.alloc(),
        &[
            Number(7),
            Signed(-7),
            Counted(1, " call", " calls"),
            Counted(2, " call", " calls"),
        ],
    )?;
    assert!(rt; things.as_bytes() == b"jackd: 7-71  call2  calls\n".as_slice());
    let words = Reason::line(
        rt.alloc(),
        &[
            Text("is "),
            Quoted(b"b".as_slice()),
            Path("./c"),
            Path("d e"),
            Front(b"f".as_slice()),
        ],
    )?;
    assert!(rt; words.as_bytes() == b"jackd: is \"b\"./c'd e'f\n".as_slice());
    Ok(())
}

#[test]
fn a_quote_in_a_name_is_escaped(rt: HostRuntime) -> Result<(), AllocError> {
    let reason = Reason::line(rt.alloc(), &[Path("it's")])?;
    assert!(rt; reason.as_bytes() == b"jackd: 'it'\\''s'\n".as_slice());
    Ok(())
}

#[test]
fn no_character_is_cut(rt: HostRuntime) -> Result<(), AllocError> {
    let word = "xöööööööööööööööööööööööööööööööööööööööö";
    let reason = Reason::line(rt.alloc(), &[Quoted(word.as_bytes())])?;
    let shown = "jackd: \"xööööööööööööööööööööööööööööööö...\"\n";
    assert!(rt; reason.as_bytes() == shown.as_bytes());
    Ok(())
}

//! Sentences with holes.
//!
//! In the text of a sentence `{0}` stands for the first of its pieces, `{1}` for the second, and so on.

ghost use Rattle.std.specs.Prelude.{IfOk};
ghost use Rattle.reason_text.specs.Reasons.{IsReason};

use reason_text::Piece::Shown;
use reason_text::{Piece, Reason};
use std::alloc::{AllocError, Global};

// What stands before the first hole, the hole's number, and what stands behind it.
fn first_hole(text: &[u8]) -> (&[u8], usize, &[u8]) {
    for place in 0..text.len() {
        if let [b'{', digit, b'}', behind @ ..] = &text[place..] {
            return (
                &text[..place],
                usize::from(digit.wrapping_sub(b'0')),
                behind,
            );
        }
    }
    (text, usize::MAX, &text[..0])
}

/// Adds a sentence. A hole of no piece stays empty.
pub fn fill(reason: &mut Reason, sentence: &str, holes: &[Piece<'_>]) -> Result<(), AllocError> {
    let mut rest = sentence.as_bytes();
    for _ in 0..sentence.len() {
        if rest.is_empty() {
            break;
        }
        let (text, number, behind) = first_hole(rest);
        match holes.get(number) {
            Some(hole) => reason.tell(&[Shown(text), *hole])?,
            None => reason.tell(&[Shown(text)])?,
        }
        rest = behind;
    }
    Ok(())
}

/// A line of a sentence.
pub fn line_of(alloc: Global, sentence: &str, holes: &[Piece<'_>]) -> Result<Reason, AllocError>
    ensures { IfOk result IsReason }
{
    let mut reason = Reason::new(alloc)?;
    fill(&mut reason, sentence, holes)?;
    reason.end_line()?;
    Ok(reason)
}

//! What a sentence is made of.

/// A piece of a sentence.
#[derive(Clone, Copy, Drop)]
pub enum Piece<'a> {
    /// A text of the program's own.
    Text(&'a str),
    /// Bytes, so that they can be seen.
    Shown(&'a [u8]),
    /// A word between quotes, at most its first 64 bytes.
    Quoted(&'a [u8]),
    /// A line of another text, at most its first 120 bytes.
    Front(&'a [u8]),
    /// A file's name as a word of a command line.
    Path(&'a str),
    /// A number.
    Number(u64),
    /// A number that may be less than 0.
    Signed(i64),
    /// A number of things, by one of two words: the first for the number 1.
    Counted(u64, &'a str, &'a str),
}

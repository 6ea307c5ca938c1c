//! The text of a reason.

ghost use Rattle.std.specs.Prelude.{◌≡◌, [], ◌∷◌, ◌++◌, codes, decimal, IfOk};
ghost use Rattle.std.specs.Fmt.{signed_decimal};
ghost use Rattle.reason_text.specs.Reasons.{IsReason, IsShown};
ghost use Rattle.reason_text.specs.Texts.{counted, path, quoted, quoted_byte, quoted_path, shown, shown_byte, shown_front, told, written};

use crate::bytes::{are_plain, front_end, hex_digit, is_text};
use crate::piece::Piece;
use itoa::Buffer;
use std::alloc::{AllocError, Global};
use std::marker::Model;

// How many bytes of a word are shown, and how many of a line.
const MOST_OF_WORD: usize = 64;

const MOST_OF_LINE: usize = 120;

/// Lines for a terminal, the first of which begins with the program's name. Contracts see their bytes.
///
/// Whatever is shown in it, no byte of it steers a terminal: such a byte is shown in hexadecimal.
#[derive(Drop)]
pub struct Reason {
    bytes: Vec<u8>,
}

impl Model for Reason {
    ghost use Rattle.std.specs.Prelude.{List, ℕ};
    ghost use Rattle.reason_text.specs.Reasons.{IsReason};

    ghost Value = { List ℕ };

    ghost view = { λ r. r.bytes.items };

    ghost invariant = { λ r. IsReason r.bytes.items };
}

impl Reason {
    /// A reason that says nothing yet.
    pub fn new(alloc: Global) -> Result<Reason, AllocError>
        ensures reason { IfOk result IsReason }
        ensures told { IfOk result (λ reason. reason ≡ codes "jackd: ") }
    {
        let bytes = Vec::from_slice(alloc, b"jackd: ")?;
        Ok(Reason { bytes })
    }

    /// The bytes.
    pub fn as_bytes(&self) -> &[u8]
        ensures value { result.now ≡ self.now }
        ensures reason { IsReason result.now }
    {
        &self.bytes
    }

    // Adds a byte that steers no terminal.
    fn add(&mut self, byte: u8) -> Result<(), AllocError>
        requires { IsShown byte }
        ensures reason { IsReason self.new }
        ensures told { IfOk result (λ _. self.new ≡ self.old ++ byte ∷ []) }
    {
        self.bytes.push(byte)?;
        Ok(())
    }

    // Adds a byte as it is, or in hexadecimal; `wide` is whether it stands in a text.
    fn show_byte(&mut self, byte: u8, wide: bool) -> Result<(), AllocError>
        ensures { IfOk result (λ _. self.new ≡ self.old ++ shown_byte wide byte) }
    {
        if byte >= 32 && byte < 127 {
            return self.add(byte);
        }
        if wide && byte >= 128 {
            return self.add(byte);
        }
        self.add(b'\\')?;
        self.add(b'x')?;
        self.add(hex_digit(byte / 16))?;
        self.add(hex_digit(byte % 16))
    }

    // Adds bytes, so that they can be seen.
    fn show(&mut self, bytes: &[u8]) -> Result<(), AllocError>
        ensures { IfOk result (λ _. self.new ≡ self.old ++ shown bytes.now) }
    {
        let wide = is_text(bytes);
        for byte in bytes {
            self.show_byte(*byte, wide)?;
        }
        Ok(())
    }

    /// Adds a text.
    pub fn say(&mut self, text: &str) -> Result<(), AllocError>
        ensures reason { IsReason self.new }
        ensures told { IfOk result (λ _. self.new ≡ self.old ++ shown text.now) }
    {
        self.tell(&[Piece::Text(text)])
    }

    // Adds a number.
    fn number(&mut self, number: u64) -> Result<(), AllocError>
        ensures { IfOk result (λ _. self.new ≡ self.old ++ shown (decimal number)) }
    {
        self.show(Buffer::new().format(number).as_bytes())
    }

    // Adds a number that may be less than 0.
    fn signed(&mut self, number: i64) -> Result<(), AllocError>
        ensures { IfOk result (λ _. self.new ≡ self.old ++ shown (signed_decimal number)) }
    {
        self.show(Buffer::new().format(number).as_bytes())
    }

    // Adds the front of bytes, with no character cut, and dots where there are more.
    fn show_front(&mut self, bytes: &[u8], most: usize) -> Result<(), AllocError>
        ensures { IfOk result (λ _. self.new ≡ self.old ++ shown_front most bytes.now) }
    {
        if bytes.len() <= most {
            return self.show(bytes);
        }
        self.show(&bytes[..front_end(bytes, most)])?;
        self.show(b"...".as_slice())
    }

    // Adds a word between quotes, at most its first 64 bytes.
    fn quote(&mut self, word: &[u8]) -> Result<(), AllocError>
        ensures { IfOk result (λ _. self.new ≡ self.old ++ quoted word.now) }
    {
        self.add(b'"')?;
        self.show_front(word, MOST_OF_WORD)?;
        self.add(b'"')
    }

    // Adds a byte within single quotes of a command line; `wide` is whether it stands in a text.
    fn quote_byte(&mut self, byte: u8, wide: bool) -> Result<(), AllocError>
        ensures { IfOk result (λ _. self.new ≡ self.old ++ quoted_byte wide byte) }
    {
        if byte != b'\'' {
            return self.show_byte(byte, wide);
        }
        self.add(b'\'')?;
        self.add(b'\\')?;
        self.add(b'\'')?;
        self.add(b'\'')
    }

    // Adds a word between single quotes.
    fn quote_path(&mut self, name: &[u8]) -> Result<(), AllocError>
        ensures { IfOk result (λ _. self.new ≡ self.old ++ quoted_path name.now) }
    {
        let wide = is_text(name);
        self.add(b'\'')?;
        for byte in name {
            self.quote_byte(*byte, wide)?;
        }
        self.add(b'\'')
    }

    // Adds a file's name as a word of a command line.
    fn path(&mut self, name: &str) -> Result<(), AllocError>
        ensures { IfOk result (λ _. self.new ≡ self.old ++ path name.now) }
    {
        if are_plain(name.as_bytes()) {
            return self.show(name.as_bytes());
        }
        self.quote_path(name.as_bytes())
    }

    // Adds a number of things, by one of two words: the first for the number 1.
    fn counted(&mut self, count: u64, one: &str, more: &str) -> Result<(), AllocError>
        ensures { IfOk result (λ _. self.new ≡ self.old ++ counted count one.now more.now) }
    {
        self.number(count)?;
        self.add(b' ')?;
        self.show(if count == 1 { one } else { more }.as_bytes())
    }

    // Adds a piece of a sentence.
    fn add_piece(&mut self, piece: Piece<'_>) -> Result<(), AllocError>
        ensures { IfOk result (λ _. self.new ≡ self.old ++ written piece.entry) }
    {
        match piece {
            Piece::Text(text) => self.show(text.as_bytes()),
            Piece::Shown(bytes) => self.show(bytes),
            Piece::Quoted(word) => self.quote(word),
            Piece::Front(line) => self.show_front(line, MOST_OF_LINE),
            Piece::Path(name) => self.path(name),
            Piece::Number(number) => self.number(number),
            Piece::Signed(number) => self.signed(number),
            Piece::Counted(count, one, more) => self.counted(count, one, more),
        }
    }

    // Adds pieces, one behind the other.
    fn add_pieces(&mut self, pieces: &[Piece<'_>]) -> Result<(), AllocError>
        ensures { IfOk result (λ _. self.new ≡ self.old ++ told pieces.now) }
    {
        for piece in pieces {
            self.add_piece(*piece)?;
        }
        Ok(())
    }

    /// Adds the pieces of a sentence.
    pub fn tell(&mut self, pieces: &[Piece<'_>]) -> Result<(), AllocError>
        ensures reason { IsReason self.new }
        ensures told { IfOk result (λ _. self.new ≡ self.old ++ told pieces.now) }
    {
        let told = self.add_pieces(pieces);
        // The proof takes the type's invariant from here.
        let _ = &self.bytes;
        told
    }

    /// A line of these pieces.
    pub fn line(alloc: Global, pieces: &[Piece<'_>]) -> Result<Reason, AllocError>
        ensures reason { IfOk result IsReason }
        ensures told { IfOk result (λ reason. reason ≡ codes "jackd: " ++ told pieces.now ++ 10 ∷ []) }
    {
        let mut reason = Reason::new(alloc)?;
        reason.tell(pieces)?;
        reason.end_line()?;
        Ok(reason)
    }

    /// Begins a further line by the program's name.
    pub fn begin_line(&mut self) -> Result<(), AllocError>
        ensures reason { IsReason self.new }
        ensures told { IfOk result (λ _. self.new ≡ self.old ++ codes "jackd: ") }
    {
        self.tell(&[Piece::Text("jackd: ")])
    }

    /// Ends the line.
    pub fn end_line(&mut self) -> Result<(), AllocError>
        ensures reason { IsReason self.new }
        ensures told { IfOk result (λ _. self.new ≡ self.old ++ 10 ∷ []) }
    {
        self.add(b'\n')
    }

    /// Ends the line, and adds a line of a text that is shown below it, at most its first 120 bytes.
    pub fn show_below(&mut self, line: &[u8]) -> Result<(), AllocError>
        ensures reason { IsReason self.new }
        ensures told { IfOk result (λ _. self.new ≡ self.old ++ 10 ∷ codes "    " ++ shown_front 120 line.now) }
    {
        self.end_line()?;
        self.tell(&[Piece::Text("    "), Piece::Front(line)])
    }
}

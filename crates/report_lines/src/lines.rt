//! One line.

ghost use Rattle.std.specs.Prelude.{◌≡◌, ◌+◌, ◌≤◌, ◌++◌, ◌∷◌, [], decimal, length};
ghost use Rattle.session_model.specs.Reports.{hex_byte};

use arrayvec::ArrayString;
use itoa::Buffer;

/// A line, with room for the longest.
pub type Line = ArrayString<160>;

/// A line that begins with this word.
pub fn begun(word: &str) -> Line
    requires { length word.now ≤ 160 }
    ensures { result.bytes ≡ word.now }
{
    let mut line = Line::new();
    line.push_str(word);
    line
}

/// Appends a number behind a space.
pub fn add_number(line: &mut Line, number: u64)
    requires { length line.old.bytes + 21 ≤ 160 }
    ensures bytes { line.new.bytes ≡ line.old.bytes ++ 32 ∷ decimal number }
    ensures short { length line.new.bytes ≤ length line.old.bytes + 21 }
{
    line.push_str(" ");
    line.push_str(Buffer::new().format(number));
}

/// Appends a word behind a space.
pub fn add_word(line: &mut Line, word: &str)
    requires { length line.old.bytes + length word.now + 1 ≤ 160 }
    ensures bytes { line.new.bytes ≡ line.old.bytes ++ 32 ∷ word.now }
    ensures short { length line.new.bytes ≡ length line.old.bytes + length word.now + 1 }
{
    line.push_str(" ");
    line.push_str(word);
}

/// Ends the line.
pub fn end_line(line: &mut Line)
    requires { length line.old.bytes + 1 ≤ 160 }
    ensures { line.new.bytes ≡ line.old.bytes ++ 10 ∷ [] }
{
    line.push_str("\n");
}

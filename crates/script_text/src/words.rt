//! Words and simple lines.

ghost use Rattle.std.specs.Prelude.{◌≡◌, ◌++◌, ◌∷◌, [], IfOk, decimal, string_bytes};
ghost use Rattle.grammar_laws.specs.session_model.specs.Grammar.{int_text, Numeral, Word};
ghost use Rattle.grammar_laws.specs.session_model.specs.Reports.{hex_byte};
ghost use Rattle.script_text.specs.Printing.{with_line, with_words};

use std::alloc::AllocError;

/// A word behind a space.
pub fn put_word(text: &mut String, word: &str) -> Result<(), AllocError>
    ensures { IfOk result (λ _. string_bytes text.new ≡ string_bytes text.old ++ 32 ∷ word.now) }
{
    text.push_str(" ")?;
    text.push_str(word)
}

/// A number behind a space.
pub fn put_number(text: &mut String, n: u32) -> Result<(), AllocError>
    ensures { IfOk result (λ _. string_bytes text.new ≡ string_bytes text.old ++ 32 ∷ decimal n) }
{
    write!(text, " {n}")
}

/// A number with its sign, behind a space.
pub fn put_signed(text: &mut String, z: i32) -> Result<(), AllocError>
    ensures { IfOk result (λ _. string_bytes text.new ≡ string_bytes text.old ++ 32 ∷ int_text z) }
{
    write!(text, " {z}")
}

/// A byte as two hexadecimal digits.
pub fn put_byte(text: &mut String, b: u8) -> Result<(), AllocError>
    ensures { IfOk result (λ _. string_bytes text.new ≡ string_bytes text.old ++ hex_byte b) }
{
    write!(text, "{b:02x}")
}

/// The end of a line.
pub fn end_line(text: &mut String) -> Result<(), AllocError>
    ensures { IfOk result (λ _. string_bytes text.new ≡ string_bytes text.old ++ 10 ∷ []) }
{
    text.push_str("\n")
}

/// A line of a word and a number.
pub fn put_number_line(text: &mut String, word: &str, n: u32) -> Result<(), AllocError>
    ensures { IfOk result (λ _. string_bytes text.new ≡ with_line (string_bytes text.old) (Word word.now ∷ Numeral n ∷ [])) }
{
    text.push_str(word)?;
    put_number(text, n)?;
    end_line(text)
}

//! The pieces of a text and of a line.

ghost use Rattle.std.specs.Prelude.{◌≡◌, ◌<◌, ◌==◌, ◌∷◌, [], IfSome, MatchOption, drop, false, length, not, slice_index, slice_index_or};
ghost use Rattle.std.specs.List.{prefix_len};
ghost use Rattle.std.specs.Str.{bytes_eq};
ghost use Rattle.session_model.specs.Texts.{is_blank, is_said, pieces, without_cr, words};

pub fn is_blank(b: u8) -> bool
    ensures { result ≡ is_blank b }
{
    b == b' ' || b == b'\t'
}

/// The line without the blanks in front.
pub fn skip_blanks(line: &[u8]) -> &[u8]
    ensures same { words result.now ≡ words line.now }
    ensures front { 0 < length result.now → is_blank (slice_index result.now 0) ≡ false }
{
    let mut rest = line;
    while let [b, tail @ ..] = rest {
        if !is_blank(*b) {
            return rest;
        }
        rest = tail;
    }
    rest
}

/// How long the word in front is.
fn word_len(line: &[u8]) -> usize
    ensures { result ≡ prefix_len (λ b. not (is_blank b)) line.now }
{
    line.iter().take_while(|b| !is_blank(**b)).count()
}

/// The first word of the line, and what stands behind it.
pub fn first_word(line: &[u8]) -> Option<(&[u8], &[u8])>
    ensures { MatchOption result (words line.now ≡ []) (λ w. words line.now ≡ w.0.now ∷ words w.1.now) }
{
    let rest = skip_blanks(line);
    if rest.is_empty() {
        return None;
    }
    Some(rest.split_at(word_len(rest)))
}

/// How long the first line is, without its LF.
fn line_len(text: &[u8]) -> usize
    ensures { result ≡ prefix_len (λ b. not (b == 10)) text.now }
{
    text.iter().take_while(|b| **b != b'\n').count()
}

fn without_lf(text: &[u8]) -> &[u8]
    ensures { result.now ≡ drop 1 text.now }
{
    match text {
        [] => text,
        [_, rest @ ..] => rest,
    }
}

/// The first line with its CR, and the text behind it.
pub fn first_piece(text: &[u8]) -> Option<(&[u8], &[u8])>
    ensures pieces { MatchOption result (text.now ≡ []) (λ x. pieces text.now ≡ x.0.now ∷ pieces x.1.now) }
    ensures shorter { IfSome result (λ x. length x.1.now < length text.now) }
{
    if text.is_empty() {
        return None;
    }
    let (line, rest) = text.split_at(line_len(text));
    Some((line, without_lf(rest)))
}

/// The line without one CR at its end.
pub fn without_cr(line: &[u8]) -> &[u8]
    ensures { result.now ≡ without_cr line.now }
{
    if line.is_empty() {
        return line;
    }
    let last = line.len() - 1;
    if line[last] == b'\r' {
        return &line[..last];
    }
    line
}

/// Whether the line has a word and is no comment.
pub fn is_said(line: &[u8]) -> bool
    ensures { result ≡ is_said (words line.now) }
{
    let rest = skip_blanks(line);
    if rest.is_empty() {
        return false;
    }
    rest[0] != b'#'
}

/// Whether the first word of the line is this one.
pub fn begins_with(line: &[u8], name: &[u8]) -> bool
    ensures { result ≡ bytes_eq (slice_index_or (words line.now) 0 []) name.now }
{
    match first_word(line) {
        Some((word, _)) => word == name,
        None => name.is_empty(),
    }
}

//! Which bytes stand for themselves.

ghost use Rattle.std.specs.Prelude.{◌≡◌, ◌<◌, ◌≤◌, length};
ghost use Rattle.std.specs.List.{list_all};
ghost use Rattle.reason_text.specs.Texts.{front_end, goes_on, hex_digit, is_plain, is_text, misleads, misleads_behind, place_before};

/// A digit of sixteen.
pub fn hex_digit(value: u8) -> u8
    requires { value < 16 }
    ensures digit { result ≡ hex_digit value }
    ensures least { 32 ≤ result }
    ensures most { result < 127 }
{
    b"0123456789abcdef"[usize::from(value)]
}

// Whether a character ends with this byte, behind two others, that steers a terminal, turns the direction of a line, or can't be
// seen.
fn misleads(first: u8, second: u8, byte: u8) -> bool
    ensures { result ≡ misleads first second byte }
{
    (second == 0xc2 && byte <= 0xa0)
        || (first == 0xe2
            && second == 0x80
            && ((0x8b <= byte && byte <= 0x8f) || (0xa8 <= byte && byte <= 0xae)))
        || (first == 0xe2 && second == 0x81 && 0xa0 <= byte)
        || (first == 0xef && second == 0xbb && byte == 0xbf)
}

// Whether such a character stands in a text.
fn has_misleading(bytes: &[u8]) -> bool
    ensures { result ≡ misleads_behind 0 0 bytes.now }
{
    let mut first = 0;
    let mut second = 0;
    for byte in bytes {
        if misleads(first, second, *byte) {
            return true;
        }
        first = second;
        second = *byte;
    }
    false
}

/// Whether the bytes are a text without characters beyond ASCII that steer a terminal, turn the direction of a line, or can't be
/// seen.
pub fn is_text(bytes: &[u8]) -> bool
    ensures { result ≡ is_text bytes.now }
{
    match str::from_utf8(bytes) {
        Ok(_) => !has_misleading(bytes),
        Err(_) => false,
    }
}

// Whether a byte stands for itself in a word of a command line.
fn is_plain(byte: u8) -> bool
    ensures { result ≡ is_plain byte }
{
    byte.is_ascii_alphanumeric() || byte == b'.' || byte == b'/' || byte == b'_' || byte == b'-'
}

/// Whether each byte of a word stands for itself.
pub fn are_plain(bytes: &[u8]) -> bool
    ensures { result ≡ list_all is_plain bytes.now }
{
    for byte in bytes {
        if !is_plain(*byte) {
            return false;
        }
    }
    true
}

// Whether a byte goes on with a character of UTF-8.
fn goes_on(byte: u8) -> bool
    ensures { result ≡ goes_on byte }
{
    byte >= 0x80 && byte < 0xc0
}

// The place before, where a character goes on at this one.
fn place_before(bytes: &[u8], end: usize) -> usize
    requires { end < length bytes.now }
    ensures place { result ≡ place_before bytes.now end }
    ensures within { result ≤ end }
{
    if goes_on(bytes[end]) {
        end.saturating_sub(1)
    } else {
        end
    }
}

/// Where a front of at most so many bytes ends that cuts no character of a text.
pub fn front_end(bytes: &[u8], most: usize) -> usize
    requires { most < length bytes.now }
    ensures place { result ≡ front_end bytes.now most }
    ensures within { result ≤ most }
{
    let third = place_before(bytes, most);
    let second = place_before(bytes, third);
    place_before(bytes, second)
}

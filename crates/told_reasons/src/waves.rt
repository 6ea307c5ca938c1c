//! Files that are no WAVE files that are read.

ghost use Rattle.std.specs.Prelude.{IfOk};
ghost use Rattle.reason_text.specs.Reasons.{IsReason};

use crate::filling::line_of;
use jack_types::{Field, WaveFault};
use reason_text::Piece::{Counted, Number, Path, Quoted, Shown, Text};
use reason_text::Reason;
use std::alloc::{AllocError, Global};

// How many first bytes tell what a file is.
const MARK: usize = 4;

/// Why a file is no WAVE file that is read. `front` is its first bytes, as far as they are there.
pub fn of_wave<'a>(
    alloc: Global,
    name: &'a str,
    fault: WaveFault,
    front: &'a [u8],
) -> Result<Reason, AllocError>
    ensures { IfOk result IsReason }
{
    let value = value_of(fault);
    line_of(
        alloc,
        sentence(fault, front),
        &[
            Shown(name.as_bytes()),
            Quoted(&front[..front.len().min(MARK)]),
            Number(value),
            Counted(value, "byte", "bytes"),
            Counted(value, "channel is", "channels are"),
            Text(name_of_tag(value)),
            Path(name),
        ],
    )
}

// The number that a fault tells.
fn value_of(fault: WaveFault) -> u64 {
    match fault {
        WaveFault::BadFormat(_, value) => u64::from(value),
        WaveFault::Ends(bytes) => bytes,
        _ => 0,
    }
}

// The sentence of a fault. `{0}` is the file, `{1}` its first bytes, `{2}` the fault's number, which is one of bytes in `{3}` and of
// channels in `{4}`, `{5}` the format of that tag, and `{6}` the file's name in a command.
fn sentence(fault: WaveFault, front: &[u8]) -> &'static str {
    match fault {
        WaveFault::NotRiff => sentence_of_mark(front),
        WaveFault::NotWave => "{0}: a RIFF file, whose form is not WAVE",
        WaveFault::NoFormat => "{0}: no \"fmt \" chunk stands before the samples",
        WaveFault::BadFormat(field, _) => sentence_of_field(field),
        WaveFault::NoData => "{0}: the file ends without a \"data\" chunk",
        WaveFault::Ends(0) => "{0}: the file is empty",
        WaveFault::Ends(_) => "{0}: the file ends after {3}, within its header",
        WaveFault::Read => "{0}: it could not be read",
        WaveFault::TooManyChunks => "{0}: 4096 chunks stand before its samples",
    }
}

// What is said of a file of another format, by its first bytes.
fn sentence_of_mark(front: &[u8]) -> &'static str {
    match front {
        [] => "{0}: no RIFF WAVE file",
        [b'f', b'L', b'a', b'C', ..] => {
            "{0}: FLAC files are not read: sox {6} -e signed-integer -b 24 new.wav"
        }
        [b'F', b'O', b'R', b'M', ..] => {
            "{0}: AIFF files are not read: sox {6} -e signed-integer -b 24 new.wav"
        }
        [b'O', b'g', b'g', b'S', ..] => {
            "{0}: Ogg files are not read: sox {6} -e signed-integer -b 24 new.wav"
        }
        [b'R', b'I', b'F', b'X', ..] => {
            "{0}: RIFX files, with the high byte first, are not read: sox {6} -e signed-integer -b 24 new.wav"
        }
        [b'r', b'i', b'f', b'f', ..] => {
            "{0}: W64 files are not read: ffmpeg -i {6} -c:a pcm_s24le new.wav"
        }
        [b'R', b'F', b'6', b'4', ..] => {
            "{0}: RF64 files are not read: ffmpeg -i {6} -c:a pcm_s24le new.wav"
        }
        [b'I', b'D', b'3', ..] => {
            "{0}: MP3 files are not read: ffmpeg -i {6} -c:a pcm_s24le new.wav"
        }
        _ => "{0}: no RIFF WAVE file (begins {1})",
    }
}

fn sentence_of_field(field: Field) -> &'static str {
    match field {
        Field::Tag => {
            "{0}: {5}samples (tag {2}) are not read: sox {6} -e signed-integer -b 24 new.wav"
        }
        Field::Guid => {
            "{0}: {5}samples (subformat {2}) are not read: sox {6} -e signed-integer -b 24 new.wav"
        }
        Field::Channels => "{0}: {4} not read: 1 to 16 are",
        Field::Rate => "{0}: its rate is 0 frames a second",
        Field::Bits => {
            "{0}: {2} bits a sample are not read: 8, 16, 24 and 32 are: sox {6} -e signed-integer -b 24 new.wav"
        }
        Field::Align => "{0}: a frame has {3}, which its channels and bits do not give",
        Field::Size => "{0}: its \"fmt \" chunk has {3}, at least 16 are needed",
        Field::Extended => "{0}: its extended \"fmt \" chunk has {3}, at least 40 are needed",
        Field::Extra => "{0}: its \"fmt \" chunk is extended by {3}, at least 22 are needed",
    }
}

// What the format of a tag is called, where it is one that is met.
fn name_of_tag(tag: u64) -> &'static str {
    match tag {
        0 => "unknown ",
        2 => "ADPCM ",
        3 => "float ",
        6 => "A-law ",
        7 => "mu-law ",
        17 => "IMA ADPCM ",
        85 => "MP3 ",
        _ => "",
    }
}

//! A client's kind.

ghost use Rattle.std.specs.Prelude.{◌≡◌, ◌-ℤ◌, ◌==◌, length, negsuc, pos};
ghost use Rattle.script_words.specs.Reads.{Reads};
ghost use Rattle.script_words.specs.session_model.specs.Reading.{chosen, kind, made, made_of_two, new_kinds, number, number_up_to, signed_number};
ghost use Rattle.script_words.specs.jack_types.specs.declared.kinds.Kind.TheVariants.{Click, Delay, Disk, Gain, Guest, Midiplay, Tape, Tone};
ghost use Rattle.script_commands.specs.Choosing.{found_in, kind_of};

use script_words::Words;
use script_words::jack_types::{Cause, Header, Kind};

fn gain(words: &mut Words) -> Result<Kind, Cause>
    ensures { Reads result words.new (made_of_two (signed_number (negsuc 32767) (pos 32767)) (number 0 31) Gain words.old) }
{
    let factor = words.signed_number(-32768, 32767)?;
    let shift = words.number(0, 31)?;
    Ok(Kind::Gain {
        factor: factor as i32,
        shift: shift as u32,
    })
}

fn delay(words: &mut Words) -> Result<Kind, Cause>
    ensures { Reads result words.new (made (number 0 4096) Delay words.old) }
{
    let frames = words.number(0, 4096)?;
    Ok(Kind::Delay {
        frames: frames as u32,
    })
}

fn tone(words: &mut Words) -> Result<Kind, Cause>
    ensures { Reads result words.new (made_of_two (number 1 65536) (signed_number (negsuc 2147483646) (pos 2147483647)) Tone words.old) }
{
    let half = words.number(1, 65536)?;
    let level = words.signed_number(-2147483647, 2147483647)?;
    Ok(Kind::Tone {
        half: half as u32,
        level: level as i32,
    })
}

fn click(words: &mut Words) -> Result<Kind, Cause>
    ensures { Reads result words.new (made (signed_number (negsuc 2147483647) (pos 2147483647)) Click words.old) }
{
    let level = words.signed_number(-2147483648, 2147483647)?;
    Ok(Kind::Click {
        level: level as i32,
    })
}

/// Which of the script's recorders it is.
fn tape(words: &mut Words, header: &Header) -> Result<Kind, Cause>
    ensures { Reads result words.new (made (number_up_to (pos 0) (pos (length header.now.recorders) -ℤ pos 1)) Tape words.old) }
{
    let recorders = header.recorders.as_slice().len() as i64;
    let recorder = words.number(0, recorders - 1)?;
    Ok(Kind::Tape {
        recorder: recorder as u8,
    })
}

fn guest(words: &mut Words) -> Result<Kind, Cause>
    ensures { Reads result words.new (made (number 0 255) Guest words.old) }
{
    let guest = words.number(0, 255)?;
    Ok(Kind::Guest { guest: guest as u8 })
}

fn midiplay(words: &mut Words) -> Result<Kind, Cause>
    ensures { Reads result words.new (made (number 0 15) Midiplay words.old) }
{
    let list = words.number(0, 15)?;
    Ok(Kind::Midiplay { list: list as u8 })
}

/// Which of the script's disks it is.
fn disk(words: &mut Words, header: &Header) -> Result<Kind, Cause>
    ensures { Reads result words.new (made (number_up_to (pos 0) (pos (length header.now.disks) -ℤ pos 1)) Disk words.old) }
{
    let disks = header.disks.as_slice().len() as i64;
    let disk = words.number(0, disks - 1)?;
    Ok(Kind::Disk { disk: disk as u8 })
}

/// What a kind of version 3 says behind its word.
fn new_kind(first: &[u8], words: &mut Words, header: &Header) -> Result<Kind, Cause>
    ensures { Reads result words.new (chosen (found_in (new_kinds header.now) first.now) words.old) }
{
    if first == b"midiplay".as_slice() {
        return midiplay(words);
    }
    if first == b"midithru".as_slice() {
        return Ok(Kind::Midithru);
    }
    if first == b"midilog".as_slice() {
        return Ok(Kind::Midilog);
    }
    if first == b"disk".as_slice() {
        return disk(words, header);
    }
    Err(Cause::Unknown)
}

/// What a kind says behind its word.
fn kind_of(first: &[u8], words: &mut Words, header: &Header) -> Result<Kind, Cause>
    ensures { Reads result words.new (chosen (kind_of header.now first.now) words.old) }
{
    if first == b"pass".as_slice() {
        return Ok(Kind::Pass);
    }
    if first == b"gain".as_slice() {
        return gain(words);
    }
    if first == b"mix".as_slice() {
        return Ok(Kind::Mix);
    }
    if first == b"delay".as_slice() {
        return delay(words);
    }
    if first == b"tone".as_slice() {
        return tone(words);
    }
    if first == b"click".as_slice() {
        return click(words);
    }
    if first == b"meter".as_slice() {
        return Ok(Kind::Meter);
    }
    if first == b"record".as_slice() {
        return tape(words, header);
    }
    if first == b"guest".as_slice() {
        return guest(words);
    }
    if header.version == 3 {
        return new_kind(first, words, header);
    }
    Err(Cause::Unknown)
}

/// A kind, by the header's version and its numbers of recorders and disks.
pub fn kind(words: &mut Words, header: &Header) -> Result<Kind, Cause>
    ensures { Reads result words.new (kind header.now words.old) }
{
    let first = words.word()?;
    kind_of(first, words, header)
}

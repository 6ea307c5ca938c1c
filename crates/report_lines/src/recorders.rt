//! The lines of recorders and of disk files.

ghost use Rattle.std.specs.Prelude.{◌≡◌, ◌≤◌, ◌==◌, ◌∷◌, [], codes, decimal, length, map};
ghost use Rattle.jack_host.specs.Bytes.{Puts};
ghost use Rattle.jack_host.specs.Causes.{HasCause};
ghost use Rattle.session_model.specs.Reports.{disk_lines, line, overrun_line, recorder_lines, underrun_line};
ghost use Rattle.report_lines.specs.Inside.{line_if};
ghost use Rattle.report_lines.specs.Outputs.{overruns_on, text_of, underruns_on};

use crate::lines::{Line, add_number, begun, end_line};
use jack_host::{Failed, Sink};
use jack_types::{Overrun, Underrun};

// A line of a word, a recorder's or disk's number, a cycle's number and two counts.
fn line_of_counts(word: &str, owner: u8, cycle: u32, sent: u64, taken: u64) -> Line
    requires { length word.now ≤ 16 }
    ensures { result.bytes ≡ line (word.now ∷ decimal owner ∷ decimal cycle ∷ decimal sent ∷ decimal taken ∷ []) }
{
    let mut line = begun(word);
    add_number(&mut line, u64::from(owner));
    add_number(&mut line, u64::from(cycle));
    add_number(&mut line, sent);
    add_number(&mut line, taken);
    end_line(&mut line);
    line
}

// A line of a word, a recorder's or disk's number and two counts.
fn line_of_owner(word: &str, owner: u8, blocks: u64, misses: u64) -> Line
    requires { length word.now ≤ 16 }
    ensures { result.bytes ≡ line (word.now ∷ decimal owner ∷ decimal blocks ∷ decimal misses ∷ []) }
{
    let mut line = begun(word);
    add_number(&mut line, u64::from(owner));
    add_number(&mut line, blocks);
    add_number(&mut line, misses);
    end_line(&mut line);
    line
}

/// Puts the line of an overrun.
pub fn put_overrun<K: Sink>(out: &mut K, overrun: &Overrun) -> Result<(), Failed>
    ensures puts { Puts (K.content out.old) (K.content out.new) result (overrun_line overrun.now) }
    ensures cause { HasCause (K.faults out.old) (K.faults out.new) result }
{
    let line = line_of_counts(
        "overrun",
        overrun.recorder,
        overrun.cycle,
        overrun.sent,
        overrun.taken,
    );
    out.put(line.as_str().as_bytes())
}

/// Puts the line of an underrun.
pub fn put_underrun<K: Sink>(out: &mut K, underrun: &Underrun) -> Result<(), Failed>
    ensures puts { Puts (K.content out.old) (K.content out.new) result (underrun_line underrun.now) }
    ensures cause { HasCause (K.faults out.old) (K.faults out.new) result }
{
    let line = line_of_counts(
        "underrun",
        underrun.disk,
        underrun.cycle,
        underrun.sent,
        underrun.taken,
    );
    out.put(line.as_str().as_bytes())
}

// How many overruns are this recorder's.
fn count_overruns(overruns: &[Overrun], recorder: u8) -> u64
    ensures { result ≡ length (overruns_on overruns.now recorder) }
{
    overruns
        .iter()
        .filter(|overrun| overrun.recorder == recorder)
        .count() as u64
}

// How many underruns are this disk's.
fn count_underruns(underruns: &[Underrun], disk: u8) -> u64
    ensures { result ≡ length (underruns_on underruns.now disk) }
{
    underruns
        .iter()
        .filter(|underrun| underrun.disk == disk)
        .count() as u64
}

// Puts the line of an overrun, where it is this recorder's.
fn put_own_overrun<K: Sink>(out: &mut K, recorder: u8, overrun: &Overrun) -> Result<(), Failed>
    ensures puts { Puts (K.content out.old) (K.content out.new) result (line_if (overrun.now.recorder == recorder) (overrun_line overrun.now)) }
    ensures cause { HasCause (K.faults out.old) (K.faults out.new) result }
{
    if overrun.recorder == recorder {
        put_overrun(out, overrun)
    } else {
        Ok(())
    }
}

// Puts the lines of the overruns of this recorder.
fn put_overruns<K: Sink>(out: &mut K, recorder: u8, overruns: &[Overrun]) -> Result<(), Failed>
    ensures puts { Puts (K.content out.old) (K.content out.new) result (text_of (map overrun_line (overruns_on overruns.now recorder))) }
    ensures cause { HasCause (K.faults out.old) (K.faults out.new) result }
{
    for overrun in overruns {
        put_own_overrun(out, recorder, overrun)?;
    }
    Ok(())
}

// Puts the line of an underrun, where it is this disk's.
fn put_own_underrun<K: Sink>(out: &mut K, disk: u8, underrun: &Underrun) -> Result<(), Failed>
    ensures puts { Puts (K.content out.old) (K.content out.new) result (line_if (underrun.now.disk == disk) (underrun_line underrun.now)) }
    ensures cause { HasCause (K.faults out.old) (K.faults out.new) result }
{
    if underrun.disk == disk {
        put_underrun(out, underrun)
    } else {
        Ok(())
    }
}

// Puts the lines of the underruns of this disk.
fn put_underruns<K: Sink>(out: &mut K, disk: u8, underruns: &[Underrun]) -> Result<(), Failed>
    ensures puts { Puts (K.content out.old) (K.content out.new) result (text_of (map underrun_line (underruns_on underruns.now disk))) }
    ensures cause { HasCause (K.faults out.old) (K.faults out.new) result }
{
    for underrun in underruns {
        put_own_underrun(out, disk, underrun)?;
    }
    Ok(())
}

// Puts the first line of a recorder.
fn put_recorder_line<K: Sink>(
    out: &mut K,
    recorder: u8,
    blocks: u64,
    overruns: u64,
) -> Result<(), Failed>
    ensures puts { Puts (K.content out.old) (K.content out.new) result (line (codes "recorder" ∷ decimal recorder ∷ decimal blocks ∷ decimal overruns ∷ [])) }
    ensures cause { HasCause (K.faults out.old) (K.faults out.new) result }
{
    let line = line_of_owner("recorder", recorder, blocks, overruns);
    out.put(line.as_str().as_bytes())
}

// Puts the first line of a disk file.
fn put_disk_line<K: Sink>(out: &mut K, disk: u8, blocks: u64, underruns: u64) -> Result<(), Failed>
    ensures puts { Puts (K.content out.old) (K.content out.new) result (line (codes "disk" ∷ decimal disk ∷ decimal blocks ∷ decimal underruns ∷ [])) }
    ensures cause { HasCause (K.faults out.old) (K.faults out.new) result }
{
    let line = line_of_owner("disk", disk, blocks, underruns);
    out.put(line.as_str().as_bytes())
}

/// Puts the lines of a recorder: the blocks in its file and how many overruns it had, and then each of them. Overruns of
/// other recorders are passed over.
pub fn put_recorder<K: Sink>(
    out: &mut K,
    recorder: u8,
    blocks: u64,
    overruns: &[Overrun],
) -> Result<(), Failed>
    ensures puts { Puts (K.content out.old) (K.content out.new) result (text_of (recorder_lines (record { recorder = recorder; blocks = blocks; overruns = overruns_on overruns.now recorder }))) }
    ensures cause { HasCause (K.faults out.old) (K.faults out.new) result }
{
    put_recorder_line(out, recorder, blocks, count_overruns(overruns, recorder))?;
    put_overruns(out, recorder, overruns)
}

/// Puts the lines of a disk file: the blocks played of it and how many underruns it had, and then each of them.
/// Underruns of other disks are passed over.
pub fn put_disk<K: Sink>(
    out: &mut K,
    disk: u8,
    blocks: u64,
    underruns: &[Underrun],
) -> Result<(), Failed>
    ensures puts { Puts (K.content out.old) (K.content out.new) result (text_of (disk_lines (record { disk = disk; blocks = blocks; underruns = underruns_on underruns.now disk }))) }
    ensures cause { HasCause (K.faults out.old) (K.faults out.new) result }
{
    put_disk_line(out, disk, blocks, count_underruns(underruns, disk))?;
    put_underruns(out, disk, underruns)
}

//! The top call.

ghost use Rattle.std.specs.Prelude.{◌≡◌, ◌≢◌, ◌<◌, ◌≤◌, ◌⊎◌, ℕ, List, IfErr, IsErrOf, OnOk, map, string_bytes};
ghost use Rattle.jack_host.specs.Causes.{Rose};
ghost use Rattle.jack_host.specs.Files.{SameFiles};
ghost use Rattle.session_model.specs.Soundness.{Apart};
ghost use Rattle.jack_types.specs.declared.replies.Row.{Row as RowValue};
ghost use Rattle.check_sights.specs.declared.sights.Sight.{Sight as SightValue};
ghost use Rattle.check_model.specs.Checking.{IsFirstWrong};
ghost use Rattle.play_words.specs.Checks.{Check, IsCheck};
ghost use Rattle.play_words.specs.Commands.{IsCommand};
ghost use Rattle.play_words.specs.Rehearsals.{IsRehearse};
ghost use Rattle.play_words.specs.Words.{IsPlay, Play, names_of};
ghost use Rattle.check_command.specs.Answers.{CheckStatus, HasCheckRefusal, IsDecided, IsVerdictCut, IsWrongAt, PutsVerdict};
ghost use Rattle.check_command.specs.Cases.{HasCase, IfCase, LacksCase, OfCase};
ghost use Rattle.check_command.specs.Lines.{IsExplained as HasExplanation};
ghost use Rattle.play_inputs.specs.Answers.{ForCheck, ForPlay, ForRehearsal, HasInput, HasLine, HasOwnFault, HasRefusal, IfInput, IsDoneOrNoMemory, IsEarly, IsLate, LacksInput, PlayStatus};
ghost use Rattle.play_inputs.specs.FaultLines.{PutsFault};
ghost use Rattle.jack_control.specs.Plays.{IsExplained, IsOutCut, IsPlayCut, TouchesOnly, made_by};
ghost use Rattle.jack_control.specs.Rehearsals.{IsRehearsed};
ghost use Rattle.play_inputs.specs.declared.status.Status.{Status as StatusValue};

use crate::opening::open_session;
use crate::playing::play_session;
use crate::rehearsing::rehearse;
use check_command::check_named;
use client_kinds::Guest;
use jack_host::{Gate, Host, Sink};
use play_inputs::{Status, put_fault, put_line};
use play_words::laws::{words_name_one_check, words_name_one_command, words_name_one_play};
use play_words::{Names, check_names, play_names, rehearsal_number};
use std::alloc::Global;
use std::sync::Wait;
use std::thread::Threads;

// Plays what these names name. What came before a file was made has put nothing out.
fn play<T: Threads + Sync, R: Wait + Sync, H: Host, K: Sink, G: Guest + Send, A: Gate>(
    threads: &T,
    wait: &R,
    alloc: Global,
    names: &Names<'_>,
    host: &mut H,
    out: &mut K,
    guests: Vec<G>,
    gate: &A,
) -> Result<(), Status>
    requires out { H.lent host.old < 900 }
    requires apart { Apart (λ (name : List ℕ). name) (names_of names.now) }
    ensures played { OnOk result (IsExplained (H.files host.old) (H.files host.new) (K.content out.old) (K.content out.new) (map G.sound (map G.score guests.items)) names.now) }
    ensures fault { IfErr result (PlayStatus (H.files host.old) (map G.sound (map G.score guests.items)) names.now) }
    ensures own { IfErr result HasOwnFault }
    ensures read { IsErrOf result Status.ReadFault →
        Rose (H.read_faults host.old) (H.read_faults host.new) ⊎ LacksInput (H.files host.old) (map G.sound (map G.score guests.items)) names.now }
    ensures write { IsErrOf result Status.WriteFault →
        Rose (H.write_faults host.old) (H.write_faults host.new) ⊎ Rose (K.faults out.old) (K.faults out.new) }
    ensures input { IsErrOf result Status.WriteFault → IfInput (H.files host.old) (map G.sound (map G.score guests.items)) names.now }
    ensures cut { IfErr result (λ status. (status ≡ Status.ReadFault) ⊎ (status ≡ Status.WriteFault) → IsPlayCut (H.files host.old) (H.files host.new) (map G.sound (map G.score guests.items)) names.now) }
    ensures out_cut { IsErrOf result Status.WriteFault → IsOutCut (H.files host.old) (H.files host.new) (K.content out.old) (K.content out.new) (K.faults out.old) (K.faults out.new) (map G.sound (map G.score guests.items)) names.now }
    ensures early { IfErr result (λ status. IsEarly status → SameFiles (H.files host.old) (H.files host.new) × (H.write_faults host.new ≡ H.write_faults host.old)) }
    ensures silent { IfErr result (λ status. status ≢ Status.WriteFault → out.new ≡ out.old) }
    ensures others { TouchesOnly (H.files host.old) (H.files host.new) (made_by names.now) }
    ensures later { (H.read_faults host.old ≤ H.read_faults host.new) × (H.write_faults host.old ≤ H.write_faults host.new) × (K.faults out.old ≤ K.faults out.new) }
    ensures reads { OnOk result (H.read_faults host.new ≡ H.read_faults host.old) }
    ensures writes { OnOk result (H.write_faults host.new ≡ H.write_faults host.old) }
    ensures puts { OnOk result (K.faults out.new ≡ K.faults out.old) }
    ensures lent { H.lent host.new ≡ H.lent host.old }
{
    let session = open_session(alloc, names, host, guests)?;
    play_session(threads, wait, gate, names, host, out, session)
}

/// Does all that the program does, and answers how it ended. `words` are without the program's name.
///
/// `play SCRIPT CAPTURE PLAYBACK`, with a pair `--record PATH` for each recorder of the script and a pair `--disk PATH` for each
/// of its disks, plays a script over a capture and disk files, writes the playback file and the recorders', and puts the report
/// out. The names differ, are not empty and do not begin with `-`. `guests` are the clients that a script opens by number. A fault
/// of the words, the script, the capture or a disk file, or of reading them, puts out one line that tells of it. With a script in
/// threads mode it waits for threads, and all this holds if it returns.
///
/// `rehearse N` makes a session of 10,000 cycles from a number below 2^32, plays it in memory, and puts out six lines on it.
///
/// `check SCRIPT CAPTURE REPORT PLAYBACK`, with the same pairs as a play, decides whether the report explains the playback and the
/// records, and puts out one line: `check ok`, or the first wrong part. It makes no file, and waits for nothing. It refuses a script
/// with a disk.
///
/// Any other words are refused.
pub fn jackd<T: Threads + Sync, R: Wait + Sync, H: Host, K: Sink, G: Guest + Send, A: Gate>(
    threads: &T,
    wait: &R,
    alloc: Global,
    words: &[String],
    host: &mut H,
    out: &mut K,
    guests: Vec<G>,
    gate: &A,
) -> Status
    requires { H.lent host.old < 900 }

    // What is written is explained by the one history that is printed, and in serial mode that is the history of serial mode.
    ensures played { result ≡ Status.Ok → ForPlay (map string_bytes words.now) (λ play. IsExplained
        (H.files host.old) (H.files host.new) (K.content out.old) (K.content out.new)
        (map G.sound (map G.score guests.items)) play) }

    // What is put out of a rehearsal is told of the history and the playback that serial mode gives for its number's session.
    // The host is not called.
    ensures rehearsed { ForRehearsal (map string_bytes words.now) (λ n. IsRehearsed n
        (K.content out.old) (K.content out.new) (K.faults out.old) (K.faults out.new) result) }
    ensures untouched { ForRehearsal (map string_bytes words.now) (λ n. host.new ≡ host.old) }
    ensures finished { ForRehearsal (map string_bytes words.now) (λ n.
        ¬ Rose (K.faults out.old) (K.faults out.new) → IsDoneOrNoMemory result) }

    // A check is Ok exactly where the report explains the files, and names the first wrong part exactly where there is one, if no
    // read and no put fails and memory is found.
    ensures checked { result ≡ Status.Ok → ForCheck (map string_bytes words.now) (λ check.
        IfCase (H.files host.old) (map G.sound (map G.score guests.items)) check HasExplanation) }
    ensures wrong { (row : RowValue) (sight : SightValue) → result ≡ Status.Wrong row sight →
        (check : Check) × IsCheck (map string_bytes words.now) check
        × IfCase (H.files host.old) (map G.sound (map G.score guests.items)) check
        (λ given written. IsFirstWrong given written row) }
    ensures decides { ForCheck (map string_bytes words.now) (λ check.
        OfCase (H.files host.old) (map G.sound (map G.score guests.items)) check
        (λ given written. HasExplanation given written →
        ¬ Rose (H.read_faults host.old) (H.read_faults host.new) →
        ¬ Rose (K.faults out.old) (K.faults out.new) → IsDoneOrNoMemory result)) }
    ensures names { ForCheck (map string_bytes words.now) (λ check.
        OfCase (H.files host.old) (map G.sound (map G.score guests.items)) check
        (λ given written. (row : RowValue) → IsFirstWrong given written row →
        ¬ Rose (H.read_faults host.old) (H.read_faults host.new) →
        ¬ Rose (K.faults out.old) (K.faults out.new) → IsWrongAt row result ⊎ (result ≡ Status.NoMemory))) }
    ensures decided { ForCheck (map string_bytes words.now) (λ check.
        HasCase (H.files host.old) (map G.sound (map G.score guests.items)) check →
        ¬ Rose (H.read_faults host.old) (H.read_faults host.new) →
        ¬ Rose (K.faults out.old) (K.faults out.new) → IsDecided result) }

    // The line is that of the verdict, or a front of it where the sink failed; no file is touched.
    ensures verdict { ForCheck (map string_bytes words.now) (λ check.
        PutsVerdict (K.content out.old) (K.content out.new) result) }
    ensures unwritten { ForCheck (map string_bytes words.now) (λ check. SameFiles (H.files host.old) (H.files host.new)
        × (H.write_faults host.new ≡ H.write_faults host.old)) }

    // A check refuses a script with a disk, and else what a play refuses, and only that.
    ensures check_fault { ForCheck (map string_bytes words.now) (λ check. result ≢ Status.Ok → CheckStatus
        (H.files host.old) (map G.sound (map G.score guests.items)) check result) }
    ensures check_read { result ≡ Status.ReadFault → ForCheck (map string_bytes words.now) (λ check.
        Rose (H.read_faults host.old) (H.read_faults host.new)
        ⊎ LacksCase (H.files host.old) (map G.sound (map G.score guests.items)) check) }
    ensures check_write { result ≡ Status.WriteFault → ForCheck (map string_bytes words.now) (λ check.
        Rose (K.faults out.old) (K.faults out.new) × IsVerdictCut
        (H.files host.old) (map G.sound (map G.score guests.items)) check
        (K.content out.old) (K.content out.new)) }
    ensures check_exact { ForCheck (map string_bytes words.now) (λ check. (status : StatusValue) →
        HasCheckRefusal (H.files host.old) (map G.sound (map G.score guests.items)) check status →
        ¬ Rose (H.read_faults host.old) (H.read_faults host.new) →
        (result ≡ status) ⊎ (result ≡ Status.NoMemory)) }

    ensures words { result ≡ Status.Words → ¬ IsCommand (map string_bytes words.now) }
    ensures uncalled { result ≡ Status.Words → host.new ≡ host.old }
    ensures lawful { result ≢ Status.Words → IsCommand (map string_bytes words.now) }

    // A refusal of the script, of the capture or of a disk file is one that their bytes have.
    ensures fault { ForPlay (map string_bytes words.now) (λ play. result ≢ Status.Ok → PlayStatus
        (H.files host.old) (map G.sound (map G.score guests.items)) play result) }

    // Whatever the host tells, want of memory is no fault of a script, and a read that failed none of a capture or a disk file.
    ensures own { HasOwnFault result }

    ensures read { result ≡ Status.ReadFault → ForPlay (map string_bytes words.now) (λ play.
        Rose (H.read_faults host.old) (H.read_faults host.new)
        ⊎ LacksInput (H.files host.old) (map G.sound (map G.score guests.items)) play) }
    ensures write { result ≡ Status.WriteFault →
        Rose (H.write_faults host.old) (H.write_faults host.new)
        ⊎ Rose (K.faults out.old) (K.faults out.new) }

    // A file or the report is written only where script, capture, disk files, guests and names fit one another.
    ensures input { result ≡ Status.WriteFault → ForPlay (map string_bytes words.now) (λ play.
        IfInput (H.files host.old) (map G.sound (map G.score guests.items)) play) }

    // Behind a fault of reading or writing each file that was made has a front of what was to be written, and those were made
    // that come first: the playback, and then the records in their order.
    ensures cut { IsLate result → ForPlay (map string_bytes words.now) (λ play. IsPlayCut
        (H.files host.old) (H.files host.new) (map G.sound (map G.score guests.items)) play) }

    // Where the report could not be put out to its end, what was put is a front of the report that explains the files.
    ensures out_cut { result ≡ Status.WriteFault → ForPlay (map string_bytes words.now) (λ play. IsOutCut
        (H.files host.old) (H.files host.new) (K.content out.old) (K.content out.new)
        (K.faults out.old) (K.faults out.new) (map G.sound (map G.score guests.items)) play) }

    // Before a file is made nothing is touched, and the line of a fault is put out.
    ensures early { IsEarly result → SameFiles (H.files host.old) (H.files host.new)
        × (H.write_faults host.new ≡ H.write_faults host.old) }
    ensures line { HasLine result → PutsFault
        (K.content out.old) (K.content out.new) (K.faults out.old) (K.faults out.new) result }
    ensures silent { result ≡ Status.NoMemory → out.new ≡ out.old }

    ensures others { ForPlay (map string_bytes words.now) (λ play.
        TouchesOnly (H.files host.old) (H.files host.new) (made_by play)) }
    ensures lent { H.lent host.new ≡ H.lent host.old }
    ensures later { (H.read_faults host.old ≤ H.read_faults host.new)
        × (H.write_faults host.old ≤ H.write_faults host.new)
        × (K.faults out.old ≤ K.faults out.new) }

    // Where all was done, nothing of the host or the sink has failed.
    ensures reads { result ≡ Status.Ok → H.read_faults host.new ≡ H.read_faults host.old }
    ensures writes { result ≡ Status.Ok → H.write_faults host.new ≡ H.write_faults host.old }
    ensures puts { result ≡ Status.Ok → K.faults out.new ≡ K.faults out.old }

    // A refusal that the told bytes have is the answer, if no read fails and memory is found.
    ensures exact { ForPlay (map string_bytes words.now) (λ play. (status : StatusValue) →
        HasRefusal (H.files host.old) (map G.sound (map G.score guests.items)) play status →
        ¬ Rose (H.read_faults host.old) (H.read_faults host.new) →
        (result ≡ status) ⊎ (result ≡ Status.NoMemory)) }

    // A script, and a capture, disk files, guests and names that fit it, are played, if nothing outside fails and memory is found.
    ensures complete { ForPlay (map string_bytes words.now) (λ play.
        HasInput (H.files host.old) (map G.sound (map G.score guests.items)) play →
        ¬ Rose (H.read_faults host.old) (H.read_faults host.new) →
        ¬ Rose (H.write_faults host.old) (H.write_faults host.new) →
        ¬ Rose (K.faults out.old) (K.faults out.new) → IsDoneOrNoMemory result) }
{
    words_name_one_play();
    words_name_one_check();
    words_name_one_command();
    if let Some(checked) = check_names(words) {
        return check_named(threads, alloc, &checked, host, out, guests, gate);
    }
    let Some(names) = play_names(words) else {
        return rehearse_named::<T, R, K, G, A>(threads, wait, alloc, words, out, gate);
    };
    match play(threads, wait, alloc, &names, host, out, guests, gate) {
        Ok(()) => Status::Ok,
        Err(status) => {
            put_line(out, status);
            status
        }
    }
}

// Rehearses the number that the words name, or refuses them.
fn rehearse_named<T: Threads + Sync, R: Wait + Sync, K: Sink, G: Guest + Send, A: Gate>(
    threads: &T,
    wait: &R,
    alloc: Global,
    words: &[String],
    out: &mut K,
    gate: &A,
) -> Status
    ensures rehearsed { (n : ℕ) → IsRehearse (map string_bytes words.now) n → IsRehearsed n (K.content out.old) (K.content out.new) (K.faults out.old) (K.faults out.new) result }
    ensures words { result ≡ Status.Words → (n : ℕ) → ¬ IsRehearse (map string_bytes words.now) n }
    ensures lawful { result ≢ Status.Words → (n : ℕ) × IsRehearse (map string_bytes words.now) n }
    ensures own { HasOwnFault result }
    ensures write { result ≡ Status.WriteFault → Rose (K.faults out.old) (K.faults out.new) }
    ensures line { HasLine result → PutsFault (K.content out.old) (K.content out.new) (K.faults out.old) (K.faults out.new) result }
    ensures silent { result ≡ Status.NoMemory → out.new ≡ out.old }
    ensures later { K.faults out.old ≤ K.faults out.new }
    ensures puts { result ≡ Status.Ok → K.faults out.new ≡ K.faults out.old }
{
    words_name_one_command();
    let Some(number) = rehearsal_number(words) else {
        put_fault(out, Status::Words);
        return Status::Words;
    };
    rehearse::<T, R, K, G, A>(threads, wait, alloc, number, out, gate)
}

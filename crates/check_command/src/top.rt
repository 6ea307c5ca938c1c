//! The command.

ghost use Rattle.std.specs.Prelude.{◌≡◌, ◌≢◌, ◌<◌, ◌≤◌, ◌⊎◌, map};
ghost use Rattle.jack_host.specs.Causes.{Rose};
ghost use Rattle.jack_host.specs.Files.{SameFiles};
ghost use Rattle.jack_types.specs.declared.replies.Row.{Row as RowValue};
ghost use Rattle.check_sights.specs.declared.sights.Sight.{Sight as SightValue};
ghost use Rattle.check_model.specs.Checking.{IsFirstWrong};
ghost use Rattle.play_inputs.specs.declared.status.Status.{Status as StatusValue};
ghost use Rattle.play_inputs.specs.Answers.{HasLine, HasOwnFault, IsDoneOrNoMemory};
ghost use Rattle.play_inputs.specs.FaultLines.{PutsFault};
ghost use Rattle.check_command.specs.Answers.{CheckStatus, HasCheckRefusal, IsDecided, IsVerdictCut, IsWrongAt, PutsVerdict};
ghost use Rattle.check_command.specs.Cases.{HasCase, IfCase, LacksCase, OfCase};
ghost use Rattle.check_command.specs.Lines.{IsExplained};

use crate::checking::decide;
use crate::verdicts::put_verdict;
use check_laws::laws::{one_first_wrong, wrong_is_unexplained};
use client_kinds::Guest;
use jack_host::{Gate, Host, Sink};
use play_inputs::{Status, put_line};
use play_words::CheckNames;
use std::alloc::Global;
use std::thread::Threads;

/// Decides whether the report explains the files, and puts out the line of the verdict, or of the fault for which there is none.
/// It makes no file.
pub fn check_named<T: Threads + Sync, H: Host, K: Sink, G: Guest + Send, A: Gate>(
    threads: &T,
    alloc: Global,
    names: &CheckNames<'_>,
    host: &mut H,
    out: &mut K,
    guests: Vec<G>,
    gate: &A,
) -> Status
    requires { H.lent host.old < 900 }
    ensures explained { result ≡ Status.Ok →
        IfCase (H.files host.old) (map G.sound (map G.score guests.items)) names.now IsExplained }
    ensures wrong { (row : RowValue) (sight : SightValue) → result ≡ Status.Wrong row sight →
        IfCase (H.files host.old) (map G.sound (map G.score guests.items)) names.now
        (λ given written. IsFirstWrong given written row) }

    // An explained report is answered so, and a wrong one by its first wrong part, if no read and no put fails and memory is found.
    ensures decides { OfCase (H.files host.old) (map G.sound (map G.score guests.items)) names.now (λ given written.
        IsExplained given written →
        ¬ Rose (H.read_faults host.old) (H.read_faults host.new) → ¬ Rose (K.faults out.old) (K.faults out.new) →
        IsDoneOrNoMemory result) }
    ensures names { OfCase (H.files host.old) (map G.sound (map G.score guests.items)) names.now (λ given written.
        (row : RowValue) → IsFirstWrong given written row →
        ¬ Rose (H.read_faults host.old) (H.read_faults host.new) → ¬ Rose (K.faults out.old) (K.faults out.new) →
        IsWrongAt row result ⊎ (result ≡ Status.NoMemory)) }
    ensures decided { HasCase (H.files host.old) (map G.sound (map G.score guests.items)) names.now →
        ¬ Rose (H.read_faults host.old) (H.read_faults host.new) → ¬ Rose (K.faults out.old) (K.faults out.new) → IsDecided result }

    ensures lawful { result ≢ Status.Words }
    ensures fault { result ≢ Status.Ok →
        CheckStatus (H.files host.old) (map G.sound (map G.score guests.items)) names.now result }
    ensures own { HasOwnFault result }
    ensures read { result ≡ Status.ReadFault →
        Rose (H.read_faults host.old) (H.read_faults host.new)
        ⊎ LacksCase (H.files host.old) (map G.sound (map G.score guests.items)) names.now }
    ensures write { result ≡ Status.WriteFault → Rose (K.faults out.old) (K.faults out.new)
        × IsVerdictCut (H.files host.old) (map G.sound (map G.score guests.items)) names.now
        (K.content out.old) (K.content out.new) }
    ensures exact { (status : StatusValue) →
        HasCheckRefusal (H.files host.old) (map G.sound (map G.score guests.items)) names.now status →
        ¬ Rose (H.read_faults host.old) (H.read_faults host.new) → (result ≡ status) ⊎ (result ≡ Status.NoMemory) }

    ensures verdict { PutsVerdict (K.content out.old) (K.content out.new) result }
    ensures line { HasLine result →
        PutsFault (K.content out.old) (K.content out.new) (K.faults out.old) (K.faults out.new) result }
    ensures silent { result ≡ Status.NoMemory → out.new ≡ out.old }
    ensures unwritten { SameFiles (H.files host.old) (H.files host.new) × (H.write_faults host.new ≡ H.write_faults host.old) }
    ensures lent { H.lent host.new ≡ H.lent host.old }
    ensures later { (H.read_faults host.old ≤ H.read_faults host.new) × (K.faults out.old ≤ K.faults out.new) }
    ensures reads { result ≡ Status.Ok → H.read_faults host.new ≡ H.read_faults host.old }
    ensures puts { result ≡ Status.Ok → K.faults out.new ≡ K.faults out.old }
{
    wrong_is_unexplained();
    one_first_wrong();
    match decide(threads, alloc, names, host, guests, gate) {
        Ok(verdict) => put_verdict(out, verdict),
        Err(status) => {
            put_line(out, status);
            status
        }
    }
}

//! The command.

ghost use Rattle.std.specs.Prelude.{◌≡◌, ◌≢◌, ◌<◌, ◌≤◌, ◌⊎◌, ℕ, List, IfErr, IfOk, IsErrOf, IsOk, OnErr, OnOk, length, map, string_bytes, take};
ghost use Rattle.cycle_plan.specs.Graphs.{state_of};
ghost use Rattle.jack_host.specs.Bytes.{Gains};
ghost use Rattle.jack_host.specs.Causes.{HasCause, Rose};
ghost use Rattle.jack_host.specs.Files.{IsThere, SameFiles};
ghost use Rattle.session_model.specs.Scripts.{turns};
ghost use Rattle.session_graph.specs.Askings.{Asking, IsGraph};
ghost use Rattle.session_graph.specs.Faults.{IsOwnFault, PutsFault};
ghost use Rattle.session_graph.specs.Files.{IfBoth, IfBytes};
ghost use Rattle.session_graph.specs.Fronts.{IsFront};
ghost use Rattle.session_graph.specs.Graphs.{ForGraph, HasFault, HasGraph, HasRefusal, IsCut, IsFaultOf, IsPut, IsShown, IsTextOf, LacksFile};
ghost use Rattle.session_graph.specs.Readings.{IsOfFront};
ghost use Rattle.session_graph.specs.declared.faults.GraphFault.{GraphFault as FaultValue};

use crate::dots::dot_of;
use crate::fault_lines::put_fault;
use crate::faults::GraphFault;
use crate::reading::read_script;
use crate::replaying::replayed;
use crate::reports::{Told, cycles_of, read_report};
use crate::texts::text_of;
use crate::words::{Asked, read_words};
use cycle_plan::Graph;
use jack_host::{Host, Sink};
use report_reader::{CycleLine, Lines};
use session_script::Script;
use std::alloc::{AllocError, Global};

// What the report tells up to the cycle, which the script has.
fn told<H: Host>(
    alloc: Global,
    script: &Script,
    host: &mut H,
    asked: &Asked<'_>,
) -> Result<Told, GraphFault>
    requires out { H.lent host.old < 1000 }
    requires counted { 1 ≤ asked.now.cycle }
    requires there { asked.now.cycle ≤ length (turns script.now) }
    ensures front { IfOk result (λ told. IfBytes (H.files host.old) asked.now.report (λ bytes. IsFront script.now bytes told.calls.items told.cycle)) }
    ensures cycle { IfOk result (λ told. told.cycle.cycle ≡ asked.now.cycle) }
    ensures few { IfOk result (λ told. length told.calls.items ≤ 4096) }
    ensures fault { IfErr result (IsOfFront (H.files host.old) asked.now script.now) }
    ensures read { IsErrOf result GraphFault.ReadFault →
        Rose (H.read_faults host.old) (H.read_faults host.new) ⊎ ¬ IsThere (H.files host.old) asked.now.report }

    ensures later { H.read_faults host.old ≤ H.read_faults host.new }
    ensures kept { OnOk result (H.read_faults host.new ≡ H.read_faults host.old) }
    ensures kept_err { IfErr result (λ fault. fault ≢ GraphFault.ReadFault → H.read_faults host.new ≡ H.read_faults host.old) }
    ensures writes { H.write_faults host.new ≡ H.write_faults host.old }
    ensures files { SameFiles (H.files host.old) (H.files host.new) }
    ensures lent { H.lent host.new ≡ H.lent host.old }
{
    let source = host.open_in(asked.report)?;
    let mut lines = Lines::of(source);
    let told = read_report(alloc, script, &mut lines, asked.cycle);
    host.back(lines.into_source());
    told
}

// The text of a graph of the kind that is asked for.
fn text_by(alloc: Global, graph: &Graph, cycle: &CycleLine, dot: bool) -> Result<String, AllocError>
    ensures { IfOk result (λ text. IsTextOf dot cycle.now (state_of graph.now) (string_bytes text)) }
{
    if dot {
        dot_of(alloc, graph, cycle)
    } else {
        text_of(alloc, graph, cycle)
    }
}

// The text that is asked for.
fn text<H: Host>(alloc: Global, host: &mut H, asked: &Asked<'_>) -> Result<String, GraphFault>
    requires out { H.lent host.old < 1000 }
    requires counted { 1 ≤ asked.now.cycle }
    ensures shown { IfOk result (λ text. IfBoth (H.files host.old) asked.now (λ script report. IsShown asked.now script report (string_bytes text))) }
    ensures fault { IfErr result (HasFault (H.files host.old) asked.now) }
    ensures own { IfErr result IsOwnFault }
    ensures read { IsErrOf result GraphFault.ReadFault → Rose (H.read_faults host.old) (H.read_faults host.new) ⊎ LacksFile (H.files host.old) asked.now }

    ensures later { H.read_faults host.old ≤ H.read_faults host.new }
    ensures kept { OnOk result (H.read_faults host.new ≡ H.read_faults host.old) }
    ensures kept_err { IfErr result (λ fault. fault ≢ GraphFault.ReadFault → H.read_faults host.new ≡ H.read_faults host.old) }
    ensures writes { H.write_faults host.new ≡ H.write_faults host.old }
    ensures files { SameFiles (H.files host.old) (H.files host.new) }
    ensures lent { H.lent host.new ≡ H.lent host.old }
{
    let script = read_script(alloc, host, asked.script)?;
    if asked.cycle > cycles_of(&script) {
        return Err(GraphFault::Words);
    }
    let told = told(alloc, &script, host, asked)?;
    let graph = replayed(alloc, &script, &told.calls, told.cycle.number, asked.cycle)?;
    let text = text_by(alloc, &graph, &told.cycle, asked.dot)?;
    Ok(text)
}

// Puts a text out.
fn put_text<K: Sink>(out: &mut K, text: &str) -> Result<(), GraphFault>
    ensures put { OnOk result (Gains (K.content out.old) (K.content out.new) text.now) }
    ensures cut { OnErr result ((k : ℕ) × (k ≤ length text.now) × Gains (K.content out.old) (K.content out.new) (take k text.now)) }
    ensures fault { IfErr result (λ fault. fault ≡ GraphFault.WriteFault) }
    ensures cause { HasCause (K.faults out.old) (K.faults out.new) result }
{
    match out.put(text.as_bytes()) {
        Ok(()) => Ok(()),
        Err(_) => Err(GraphFault::WriteFault),
    }
}

/// Puts out the graph that a cycle used, by its script and its report.
///
/// The words are `graph SCRIPT REPORT CYCLE [--dot]`, without the program's name. Where there is no such graph, one line tells
/// of it.
pub fn graph<H: Host, K: Sink>(
    alloc: Global,
    words: &[String],
    host: &mut H,
    out: &mut K,
) -> Result<(), GraphFault>
    requires { H.lent host.old < 1000 }

    // What is put out is the graph behind the first calls of the report, as many accepted ones as the cycle's line says.
    ensures shown { OnOk result ((asking : Asking) × IsGraph (map string_bytes words.now) asking
        × IsPut (H.files host.old) (K.content out.old) (K.content out.new) asking) }

    // A fault comes only where the words and the files have it, or the outside failed.
    ensures fault { IfErr result (λ fault. fault ≢ GraphFault.WriteFault →
        IsFaultOf (H.files host.old) (map string_bytes words.now) fault) }
    ensures own { IfErr result IsOwnFault }
    ensures read { IsErrOf result GraphFault.ReadFault → (asking : Asking) × IsGraph (map string_bytes words.now) asking
        × (Rose (H.read_faults host.old) (H.read_faults host.new) ⊎ LacksFile (H.files host.old) asking) }
    ensures write { IsErrOf result GraphFault.WriteFault → Rose (K.faults out.old) (K.faults out.new) }
    ensures cut { IsErrOf result GraphFault.WriteFault → (asking : Asking) × IsGraph (map string_bytes words.now) asking
        × IsCut (H.files host.old) (K.content out.old) (K.content out.new) asking }
    ensures line { IfErr result (λ fault. fault ≢ GraphFault.WriteFault →
        PutsFault (K.content out.old) (K.content out.new) (K.faults out.old) (K.faults out.new) fault) }

    // Words that ask for no graph are refused, and the host is not called.
    ensures words { ((asking : Asking) → ¬ IsGraph (map string_bytes words.now) asking) → IsErrOf result GraphFault.Words }
    ensures uncalled { ((asking : Asking) → ¬ IsGraph (map string_bytes words.now) asking) → host.new ≡ host.old }

    // No file is touched.
    ensures files { SameFiles (H.files host.old) (H.files host.new) }
    ensures writes { H.write_faults host.new ≡ H.write_faults host.old }
    ensures lent { H.lent host.new ≡ H.lent host.old }
    ensures later { (H.read_faults host.old ≤ H.read_faults host.new) × (K.faults out.old ≤ K.faults out.new) }

    // Nothing of the host has failed where no fault of reading is answered, and nothing of the sink where the graph is put out.
    ensures reads { ¬ IsErrOf result GraphFault.ReadFault → H.read_faults host.new ≡ H.read_faults host.old }
    ensures puts { OnOk result (K.faults out.new ≡ K.faults out.old) }

    // The refusal that the told files have is the answer, if no read fails and memory is found.
    ensures exact { ForGraph (map string_bytes words.now) (λ asking. (fault : FaultValue) →
        HasRefusal (H.files host.old) asking fault →
        ¬ Rose (H.read_faults host.old) (H.read_faults host.new) →
        IsErrOf result fault ⊎ IsErrOf result GraphFault.NoMemory) }

    // A graph that they have is put out, if nothing outside fails and memory is found.
    ensures complete { ForGraph (map string_bytes words.now) (λ asking. (text : List ℕ) →
        HasGraph (H.files host.old) asking text →
        ¬ Rose (H.read_faults host.old) (H.read_faults host.new) →
        ¬ Rose (K.faults out.old) (K.faults out.new) → IsOk result ⊎ IsErrOf result GraphFault.NoMemory) }
{
    let Some(asked) = read_words(words) else {
        put_fault(out, GraphFault::Words);
        return Err(GraphFault::Words);
    };
    match text(alloc, host, &asked) {
        Ok(text) => put_text(out, text.as_str()),
        Err(fault) => {
            put_fault(out, fault);
            Err(fault)
        }
    }
}

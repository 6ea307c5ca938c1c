//! A cycle of the parts.

ghost use Rattle.std.specs.Prelude.{◌≡◌, ◌+◌, ◌<◌, ◌≤◌, ◌==◌, ◌^◌, [], ℕ, All, Some, length, slice_index_or, true, false};
ghost use Rattle.port_registry.specs.Registered.{open_clients};
ghost use Rattle.midi_wiring.specs.cycle_plan.specs.Plans.{Planned};
ghost use Rattle.midi_player.specs.Standings.{IsLawful};
ghost use Rattle.midi_seats.specs.Owning.{IsShort};
ghost use Rattle.midi_seats.specs.Seating.{owner_of};
ghost use Rattle.midi_stage.specs.Insides.{GoesOnFrom, HaveRoom, IsTurned, PlaysAll, Stands, kinds_in, staged_by};
ghost use Rattle.midi_stage.specs.Sounding.{AreSeated, no_standing, sounded};
ghost use Rattle.midi_stage.specs.Stages.{PlaysMidi, heard_in};
ghost use Rattle.midi_stage.specs.Standing.{HearsNobody};

use crate::carrying::carry;
use crate::cycling::play_nodes;
use crate::parts::Parts;
use crate::turning::{exchange, turn_to};
use jack_types::{Logged, Moment};
use midi_seats::seating::bench_owned;
use midi_wiring::cycle_plan::Plan;
use midi_wiring::laws::events_come_from_players;

/// Plays the clients of a plan that have seats.
fn play_all(parts: &mut Parts, plan: &Plan, moment: &Moment, period: u32)
    requires room { HaveRoom parts.old }
    requires turned { IsTurned plan.now parts.old }
    requires staffed { parts.old.is_staffed ≡ true }
    requires seated { AreSeated (sounded parts.old.sounds) (length parts.old.benches.items) }
    requires frames { moment.now.frame + period < 2 ^ 32 }
    ensures { PlaysAll plan.now moment.now period parts.old parts.new }
{
    events_come_from_players();
    let nodes = plan.nodes();
    carry(
        &mut parts.sounds.outputs,
        parts.wiring.given(),
        parts.sounds.seats.as_slice(),
    );
    play_nodes(
        parts.benches.as_mut_slice(),
        &mut parts.sounds,
        &parts.wiring,
        nodes,
        parts.lists.as_slice(),
        &parts.unlisted,
        moment,
        period,
        &mut parts.rooms,
    );
}

/// Plays the clients of a plan, where each MIDI client has its bench. Answers whether each has one; where one can have none,
/// nobody plays.
pub(crate) fn perform(
    parts: &mut Parts,
    plan: &Plan,
    moment: &Moment,
    period: u32,
    has_same_period: bool,
) -> bool
    requires stands { (last : Planned) × Stands last parts.old × GoesOnFrom last plan.now }
    requires frames { moment.now.frame + period < 2 ^ 32 }
    ensures stands { (last : Planned) → Stands last parts.old → GoesOnFrom last plan.now → Stands plan.now parts.new }
    ensures plays { (last : Planned) (before : ℕ) → Stands last parts.old → GoesOnFrom last plan.now → has_same_period ≡ (before == period) → result ≡ true
        → PlaysMidi (staged_by before parts.old) plan.now moment.now period (staged_by period parts.new) }
    ensures rests { (last : Planned) (before : ℕ) → Stands last parts.old → GoesOnFrom last plan.now → has_same_period ≡ (before == period) → result ≡ false
        → HearsNobody (heard_in (staged_by before parts.old)) period (heard_in (staged_by period parts.new)) }
    ensures short { (last : Planned) → Stands last parts.old → GoesOnFrom last plan.now → result ≡ false → IsShort (open_clients plan.now.nodes) parts.new.owners.items }
    ensures kinds { kinds_in parts.new ≡ kinds_in parts.old }
    ensures lists { parts.new.lists ≡ parts.old.lists }
{
    exchange(&mut parts.sounds, has_same_period);
    turn_to(parts, plan);
    if parts.is_staffed {
        play_all(parts, plan, moment, period);
    } else {
        parts.sounds.outputs.clear();
    }
    parts.is_staffed
}

/// The log of the client of this birth.
pub(crate) fn log_of(parts: &Parts, birth: u32) -> &[Logged]
    requires { (last : Planned) × Stands last parts.now }
    ensures owned { (b : ℕ) → owner_of parts.now.owners.items b ≡ Some birth → result.now ≡ (slice_index_or parts.now.benches.items b no_standing).log }
    ensures nobodys { ((b : ℕ) → owner_of parts.now.owners.items b ≡ Some birth → ⊥) → result.now ≡ [] }
    ensures few { length result.now ≤ 4096 }
    ensures lawful { All IsLawful result.now }
{
    match bench_owned(&parts.owners, birth) {
        Some(bench) => parts.benches[bench].log(),
        None => &[],
    }
}

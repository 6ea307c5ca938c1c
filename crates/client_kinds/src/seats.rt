//! Where a bench keeps its guest.

ghost use Rattle.std.specs.Prelude.{◌≡◌, ◌*◌, ◌+◌, ◌<◌, ◌≤◌, ◌^◌, ◌==◌, IfNone, IfSome, IsSome, None, false, is_some, length, option_map};
ghost use Rattle.std.specs.Option.{ForSome};
ghost use Rattle.client_kinds.specs.Buffers.{buffers_of};
ghost use Rattle.client_kinds.specs.Seats.{IsTold, Playing, seat_outputs, seated_after, turn_of};

use crate::buffers::fill_silent;
use crate::guests::{Guest, Shape};
use port_mixer::jack_types::Moment;
use std::marker::Model;

/// A guest, or none.
#[derive(Drop)]
pub(crate) struct GuestSeat<G: Guest> {
    guest: Option<G>,
    is_dead: bool,
}

impl<G: Guest> Model for GuestSeat<G> {
    ghost use Rattle.std.specs.Prelude.{None, option_map};
    ghost use Rattle.std.specs.Option.{option_map_or};
    ghost use Rattle.client_kinds.specs.Seats.{Asked};

    ghost Value = { Asked };

    ghost view = { λ seat. record {
      seated = record { playing = option_map (λ guest. record { score = G.score guest; numbers = G.numbers guest }) seat.guest; is_dead = seat.is_dead };
      told = option_map_or (λ guest. G.told guest) seat.guest None;
    } };
}

impl<G: Guest> GuestSeat<G> {
    /// A seat with no guest.
    pub(crate) fn new() -> GuestSeat<G>
        ensures { result ≡ record { seated = record { playing = None; is_dead = false }; told = None } }
    {
        GuestSeat {
            guest: None,
            is_dead: false,
        }
    }

    /// Seats a guest in its first memory.
    pub(crate) fn lend(&mut self, guest: G)
        requires { self.old.seated.playing ≡ None }
        ensures { self.new ≡ record { seated = record { playing = Some (record { score = G.score guest; numbers = (G.sound (G.score guest)).first }); is_dead = false }; told = None } }
    {
        let mut guest = guest;
        guest.reset();
        self.guest = Some(guest);
        self.is_dead = false;
    }

    /// The guest that was lent, which leaves.
    pub(crate) fn give_back(&mut self) -> Option<G>
        ensures none { IfNone result (self.old.seated.playing ≡ None) }
        ensures guest { IfSome result (λ guest. self.old.seated.playing ≡ Some (record { score = G.score guest; numbers = G.numbers guest })) }
        ensures empty { self.new ≡ record { seated = record { playing = None; is_dead = false }; told = None } }
    {
        self.is_dead = false;
        self.guest.take()
    }

    /// Whether there is a guest.
    pub(crate) fn is_taken(&self) -> bool
        ensures { result ≡ is_some self.now.seated.playing }
    {
        self.guest.is_some()
    }

    /// Whether the guest answered other than 0.
    pub(crate) fn is_dead(&self) -> bool
        ensures { result ≡ self.now.seated.is_dead }
    {
        self.is_dead
    }

    /// How much work its guest has in a cycle, which is as much as the period has frames where there is none.
    pub(crate) fn work(&self, ports: Shape) -> u32
        ensures none { self.now.seated.playing ≡ None → result ≡ ports.period }
    {
        match self.guest.as_ref() {
            Some(guest) => guest.work(ports),
            None => ports.period,
        }
    }

    /// Asks the guest, unless it is dead.
    pub(crate) fn play(&mut self, moment: &Moment, ports: Shape, input: &[i32], output: &mut [i32])
        requires guest { IsSome self.old.seated.playing }
        requires rate { 8000 ≤ moment.now.rate }
        requires frames { moment.now.frame + ports.period < 2 ^ 32 }
        requires few_inputs { ports.inputs ≤ 16 }
        requires few_outputs { ports.outputs ≤ 16 }
        requires input { length input.now ≡ ports.inputs * ports.period }
        requires output { length output.old ≡ ports.outputs * ports.period }
        ensures score { option_map (λ (playing : Playing). playing.score) self.new.seated.playing ≡ option_map (λ (playing : Playing). playing.score) self.old.seated.playing }
        ensures told { IsTold self.old.seated.is_dead moment.now self.old.told self.new.told }
        ensures after { (playing : Playing) → self.old.seated.playing ≡ Some playing → self.new.seated ≡ seated_after self.old.seated playing (turn_of G.sound playing moment.now ports.outputs ports.period (buffers_of ports.inputs ports.period input.now)) }
        ensures output { (playing : Playing) → self.old.seated.playing ≡ Some playing → buffers_of ports.outputs ports.period output.new ≡ seat_outputs self.old.seated.is_dead ports.period ports.outputs (turn_of G.sound playing moment.now ports.outputs ports.period (buffers_of ports.inputs ports.period input.now)) }
    {
        if self.is_dead {
            fill_silent(ports, output);
            return;
        }
        match self.guest.as_mut() {
            Some(guest) => self.is_dead = !ask(guest, moment, ports, input, output),
            None => unreachable!(),
        }
    }
}

/// Asks a guest, and is silent where it answers other than 0. Whether it answered 0.
fn ask<G: Guest>(
    guest: &mut G,
    moment: &Moment,
    ports: Shape,
    input: &[i32],
    output: &mut [i32],
) -> bool
    requires rate { 8000 ≤ moment.now.rate }
    requires frames { moment.now.frame + ports.period < 2 ^ 32 }
    requires few_inputs { ports.inputs ≤ 16 }
    requires few_outputs { ports.outputs ≤ 16 }
    requires input { length input.now ≡ ports.inputs * ports.period }
    requires output { length output.old ≡ ports.outputs * ports.period }
    ensures score { G.score guest.new ≡ G.score guest.old }
    ensures told { ForSome (G.told guest.new) (λ told. told ≡ moment.now) }
    ensures numbers { G.numbers guest.new ≡ ((G.sound (G.score guest.old)).turn moment.now ports.outputs ports.period (G.numbers guest.old) (buffers_of ports.inputs ports.period input.now)).numbers }
    ensures output { buffers_of ports.outputs ports.period output.new ≡ seat_outputs false ports.period ports.outputs ((G.sound (G.score guest.old)).turn moment.now ports.outputs ports.period (G.numbers guest.old) (buffers_of ports.inputs ports.period input.now)) }
    ensures answer { result ≡ (((G.sound (G.score guest.old)).turn moment.now ports.outputs ports.period (G.numbers guest.old) (buffers_of ports.inputs ports.period input.now)).answer == 0) }
{
    let answer = guest.process(moment, ports, input, output);
    if answer == 0 {
        return true;
    }
    fill_silent(ports, output);
    false
}

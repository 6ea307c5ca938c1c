//! A bench: a client's memory, and its play.

ghost use Rattle.std.specs.Prelude.{◌≡◌, ◌+◌, ◌*◌, ◌<◌, ◌≤◌, ◌^◌, IfOk, IsTrue, List, length, map};
ghost use Rattle.port_mixer.specs.Sums.{sums_of};
ghost use Rattle.port_mixer.specs.session_model.specs.Kinds.{outputs_by, play};
ghost use Rattle.client_kinds.specs.Benches.{standing};
ghost use Rattle.client_kinds.specs.Buffers.{buffers_of};
ghost use Rattle.client_kinds.specs.Rooms.{HasMixed, IsMixed, IsRoomy, HasSums};
ghost use Rattle.client_kinds.specs.Scores.{Score};
ghost use Rattle.client_kinds.specs.Seats.{IsTold};
ghost use Rattle.client_kinds.specs.Sounds.{asks_guest, sound, stepped};
ghost use Rattle.client_kinds.specs.Standings.{HasGuest, HasScore};

use crate::buffers::buffer_at;
use crate::guests::{Guest, Shape};
use crate::seats::GuestSeat;
use crate::voices::Voice;
use port_mixer::Mixer;
use port_mixer::jack_types::{Kind, Memory, Moment};
use std::alloc::Global;
use std::marker::Model;

/// Whether a client's guest still answers 0. All other clients are alive.
#[derive(Clone, Copy, PartialEq, Eq, Debug)]
pub enum Health {
    Alive,
    Dead,
}

/// A client's memory, with the room that it plays in, and the guest that it asks.
///
/// Contracts see a `Standing`: the kind, the greatest period, the guest's score, and the memory.
#[derive(Drop)]
pub struct Bench<G: Guest> {
    voice: Voice,
    mixer: Mixer,
    seat: GuestSeat<G>,
}

impl<G: Guest> Model for Bench<G> {
    ghost use Rattle.client_kinds.specs.Standings.{Standing};
    ghost use Rattle.client_kinds.specs.Benches.{standing};
    ghost use Rattle.client_kinds.specs.Rooms.{IsRoomy};

    ghost Value = { Standing };

    ghost view = { λ bench. standing bench.voice bench.seat.seated };

    ghost invariant = { λ bench. IsRoomy bench.voice.kind bench.voice.period bench.mixer.room bench.voice.memory };
}

/// Mixes the inputs.
fn mix_inputs(mixer: &mut Mixer, ports: Shape, input: &[i32])
    requires room { ports.period ≤ mixer.old.room }
    requires few { ports.inputs ≤ 16 }
    requires input { length input.now ≡ ports.inputs * ports.period }
    ensures sums { mixer.new.sums ≡ sums_of ports.period (buffers_of ports.inputs ports.period input.now) }
    ensures room { mixer.new.room ≡ mixer.old.room }
{
    mixer.clear(ports.period);
    for place in 0..usize::from(ports.inputs) {
        mixer.add(buffer_at(ports, input, place));
    }
}

/// Mixes the inputs, but one that is alone.
fn mix_others(mixer: &mut Mixer, ports: Shape, input: &[i32])
    requires room { ports.period ≤ mixer.old.room }
    requires few { ports.inputs ≤ 16 }
    requires input { length input.now ≡ ports.inputs * ports.period }
    ensures sums { HasMixed ports.inputs ports.period (buffers_of ports.inputs ports.period input.now) mixer.new.sums }
    ensures room { mixer.new.room ≡ mixer.old.room }
{
    if ports.inputs != 1 {
        mix_inputs(mixer, ports, input);
    }
}

/// Mixes the inputs where a kind plays the mix of more than one, or of none.
fn prepare(mixer: &mut Mixer, kind: Kind, ports: Shape, input: &[i32])
    requires room { HasSums kind ports.period mixer.old.room }
    requires few { ports.inputs ≤ 16 }
    requires input { length input.now ≡ ports.inputs * ports.period }
    ensures mixed { IsMixed kind ports.inputs ports.period (buffers_of ports.inputs ports.period input.now) mixer.new.sums }
    ensures room { mixer.new.room ≡ mixer.old.room }
{
    match kind {
        Kind::Mix => mix_others(mixer, ports, input),
        _ => {}
    }
}

/// Plays a cycle of a kind that asks no guest.
#[tactic(auto, using(crate::proofs::PlayLemmas::sums_fit))]
fn play_voice(
    voice: &mut Voice,
    mixer: &mut Mixer,
    moment: &Moment,
    ports: Shape,
    input: &[i32],
    output: &mut [i32],
)
    requires room { HasSums voice.old.kind voice.old.period mixer.old.room }
    requires rate { 8000 ≤ moment.now.rate }
    requires frames { moment.now.frame + ports.period < 2 ^ 32 }
    requires period { ports.period ≤ voice.old.period }
    requires few_inputs { ports.inputs ≤ 16 }
    requires few_outputs { ports.outputs ≤ 16 }
    requires input { length input.now ≡ ports.inputs * ports.period }
    requires output { length output.old ≡ ports.outputs * ports.period }
    ensures room { mixer.new.room ≡ mixer.old.room }
    ensures voice { voice.new ≡ record voice.old { memory = stepped voice.old.kind voice.old.memory ports.period (buffers_of ports.inputs ports.period input.now) } }
    ensures output { buffers_of ports.outputs ports.period output.new ≡ outputs_by ports.outputs (sound voice.old.kind voice.old.memory moment.now ports.period (buffers_of ports.inputs ports.period input.now)) }
{
    prepare(mixer, voice.kind(), ports, input);
    voice.fill_all(mixer, moment, ports, input, output);
    voice.step(ports, input);
}

/// Plays a cycle of any kind, on the parts of a bench. A guest that lives is told the moment.
fn play_parts<G: Guest>(
    voice: &mut Voice,
    mixer: &mut Mixer,
    seat: &mut GuestSeat<G>,
    moment: &Moment,
    ports: Shape,
    input: &[i32],
    output: &mut [i32],
)
    requires roomy { IsRoomy voice.old.kind voice.old.period mixer.old.room voice.old.memory }
    requires guest { HasGuest voice.old.kind (standing voice.old seat.old.seated).score }
    requires rate { 8000 ≤ moment.now.rate }
    requires frames { moment.now.frame + ports.period < 2 ^ 32 }
    requires period { ports.period ≤ voice.old.period }
    requires few_inputs { ports.inputs ≤ 16 }
    requires few_outputs { ports.outputs ≤ 16 }
    requires input { length input.now ≡ ports.inputs * ports.period }
    requires output { length output.old ≡ ports.outputs * ports.period }
    ensures roomy { IsRoomy voice.new.kind voice.new.period mixer.new.room voice.new.memory }
    ensures kind { voice.new.kind ≡ voice.old.kind }
    ensures period { voice.new.period ≡ voice.old.period }
    ensures score { (standing voice.new seat.new.seated).score ≡ (standing voice.old seat.old.seated).score }
    ensures memory { (scores : List Score) → HasScore (standing voice.old seat.old.seated) scores → (standing voice.new seat.new.seated).memory ≡ (play (map G.sound scores) voice.old.kind (standing voice.old seat.old.seated).memory ports.outputs moment.now ports.period (buffers_of ports.inputs ports.period input.now)).memory }
    ensures output { (scores : List Score) → HasScore (standing voice.old seat.old.seated) scores → buffers_of ports.outputs ports.period output.new ≡ (play (map G.sound scores) voice.old.kind (standing voice.old seat.old.seated).memory ports.outputs moment.now ports.period (buffers_of ports.inputs ports.period input.now)).outputs }
    ensures told { IsTrue (asks_guest voice.old.kind) → IsTold seat.old.seated.is_dead moment.now seat.old.told seat.new.told }
{
    match voice.kind() {
        Kind::Guest { .. } => seat.play(moment, ports, input, output),
        _ => play_voice(voice, mixer, moment, ports, input, output),
    }
}

/// The room for the sums of a mix.
fn room_for(alloc: Global, kind: Kind, period: u32) -> Result<Mixer, Memory>
    ensures { IfOk result (λ mixer. HasSums kind period mixer.room) }
{
    match kind {
        Kind::Mix => Mixer::new(alloc, period),
        _ => Mixer::new(alloc, 0),
    }
}

impl<G: Guest> Bench<G> {
    ghost use Rattle.std.specs.Prelude.{◌≡◌, ◌+◌, ◌*◌, ◌<◌, ◌≤◌, ◌^◌, [], false, IfNone, IfOk, IfSome, List, None, is_some, length, map};
    ghost use Rattle.port_mixer.specs.session_model.specs.Kinds.{first, play};
    ghost use Rattle.client_kinds.specs.Buffers.{buffers_of, channels_of};
    ghost use Rattle.client_kinds.specs.Healths.{health_of};
    ghost use Rattle.client_kinds.specs.Scores.{Score};
    ghost use Rattle.client_kinds.specs.Standings.{HasGuest, HasScore, IsDisk, IsGuest, IsPlayable};

    /// The bench of a kind in its first memory, for cycles of at most so many frames.
    #[tactic(auto, using(crate::proofs::PlayLemmas::first_bare, crate::proofs::PlayLemmas::first_plain))]
    pub fn new(alloc: Global, kind: Kind, period: u32) -> Result<Bench<G>, Memory>
        requires { IsPlayable kind }
        ensures { IfOk result (λ bench. bench ≡ record { kind = kind; period = period; score = None; memory = first [] kind }) }
    {
        let mixer = room_for(alloc, kind, period)?;
        match Voice::new(alloc, kind, period) {
            Ok(voice) => Ok(Bench {
                voice,
                mixer,
                seat: GuestSeat::new(),
            }),
            Err(_) => Err(Memory),
        }
    }

    /// Lends a guest, which is reset.
    pub fn lend(&mut self, guest: G)
        requires kind { IsGuest self.old.kind }
        requires none { self.old.score ≡ None }
        ensures kind { self.new.kind ≡ self.old.kind }
        ensures period { self.new.period ≡ self.old.period }
        ensures score { self.new.score ≡ Some (G.score guest) }
        ensures memory { (scores : List Score) → HasScore self.new scores → self.new.memory ≡ first (map G.sound scores) self.new.kind }
    {
        self.seat.lend(guest);
    }

    /// The guest that was lent, if there is one, as it is: with the numbers that it remembers. It leaves.
    pub fn give_back(&mut self) -> Option<G>
        ensures none { IfNone result (self.old.score ≡ None) }
        ensures guest { IfSome result (λ guest. self.old.score ≡ Some (G.score guest)) }
        ensures numbers { IfSome result (λ guest. self.old.memory.numbers ≡ G.numbers guest) }
        ensures after { self.new ≡ record self.old { score = None; memory = record self.old.memory { numbers = []; is_dead = false } } }
    {
        self.seat.give_back()
    }

    /// Feeds a disk player the interleaved block that its next cycle plays and uses up. Without one it
    /// plays silence.
    pub fn feed(&mut self, samples: &[i32], channels: u16)
        requires kind { IsDisk self.old.kind }
        requires least { 1 ≤ channels }
        requires most { channels ≤ 8 }
        requires samples { length samples.now ≡ channels * self.old.period }
        ensures { self.new ≡ record self.old { memory = record self.old.memory { fed = channels_of channels self.old.period samples.now } } }
    {
        self.voice.feed(samples, channels);
    }

    /// Plays a cycle on planar buffers, and answers the client's health.
    ///
    /// A cycle that is shorter than a block that was fed plays the block's front, and uses the block up. A
    /// dead bench is silent and calls nobody.
    pub fn process(
        &mut self,
        moment: &Moment,
        ports: Shape,
        input: &[i32],
        output: &mut [i32],
    ) -> Health
        requires guest { HasGuest self.old.kind self.old.score }
        requires rate { 8000 ≤ moment.now.rate }
        requires frames { moment.now.frame + ports.period < 2 ^ 32 }
        requires period { ports.period ≤ self.old.period }
        requires few_inputs { ports.inputs ≤ 16 }
        requires few_outputs { ports.outputs ≤ 16 }
        requires input { length input.now ≡ ports.inputs * ports.period }
        requires output { length output.old ≡ ports.outputs * ports.period }
        ensures kind { self.new.kind ≡ self.old.kind }
        ensures period { self.new.period ≡ self.old.period }
        ensures score { self.new.score ≡ self.old.score }
        ensures memory { (scores : List Score) → HasScore self.old scores → self.new.memory ≡ (play (map G.sound scores) self.old.kind self.old.memory ports.outputs moment.now ports.period (buffers_of ports.inputs ports.period input.now)).memory }
        ensures output { (scores : List Score) → HasScore self.old scores → buffers_of ports.outputs ports.period output.new ≡ (play (map G.sound scores) self.old.kind self.old.memory ports.outputs moment.now ports.period (buffers_of ports.inputs ports.period input.now)).outputs }
        ensures health { result ≡ health_of self.new.memory.is_dead }
    {
        play_parts(
            &mut self.voice,
            &mut self.mixer,
            &mut self.seat,
            moment,
            ports,
            input,
            output,
        );
        self.health()
    }

    /// Whether the guest still answers 0.
    fn health(&self) -> Health
        ensures { result ≡ health_of self.now.memory.is_dead }
    {
        if self.seat.is_dead() {
            Health::Dead
        } else {
            Health::Alive
        }
    }

    /// How much work a cycle with such ports is, as its guest tells it. A bench with no guest has as much as
    /// the period has frames.
    pub fn work(&self, ports: Shape) -> u32
        ensures none { self.now.score ≡ None → result ≡ ports.period }
    {
        self.seat.work(ports)
    }

    /// A meter's peak, the greatest magnitude of its inputs so far.
    pub fn peak(&self) -> u32
        ensures { result ≡ self.now.memory.peak }
    {
        self.voice.peak()
    }

    /// The client's kind.
    pub fn kind(&self) -> Kind
        ensures { result ≡ self.now.kind }
    {
        self.voice.kind()
    }

    /// Whether a guest is lent to it.
    pub fn has_guest(&self) -> bool
        ensures { result ≡ is_some self.now.score }
    {
        self.seat.is_taken()
    }
}

//! Guests: clients that the program hands in.

ghost use Rattle.std.specs.Prelude.{◌≡◌, ◌*◌, ◌≤◌, ◌<◌, ◌+◌, ◌^◌, ℤ, List, None, Option, length, pos};
ghost use Rattle.std.specs.Option.{ForSome};
ghost use Rattle.port_mixer.specs.jack_types.specs.declared.moments.Moment.{Moment as MomentValue};
ghost use Rattle.port_mixer.specs.session_model.specs.Kinds.{Sound};
ghost use Rattle.client_kinds.specs.Scores.{Score};
ghost use Rattle.client_kinds.specs.Turns.{IsPlayed, turn_by};

use port_mixer::jack_types::Moment;

/// The audio ports of a client, and the frames of a cycle. Buffers are planar: port after port, in
/// order of birth, a period of samples each.
#[derive(Clone, Copy, PartialEq, Eq, Debug)]
pub struct Shape {
    pub inputs: u16,
    pub outputs: u16,
    pub period: u32,
}

/// A client that the program hands in. It plays by its score, which no call changes, and
/// remembers numbers.
pub trait Guest: Drop {
    /// The numbers that tell what it plays. No call changes them.
    ghost score: { Self → Score };

    /// What a guest of this type plays by such numbers.
    ghost sound: { Score → Sound };

    ghost numbers: { Self → List ℤ };

    /// The moment of the last cycle that it played, where it keeps that.
    ghost told: { Self → Option MomentValue };

    /// Plays a cycle, and answers 0 where it goes on. What its sound gives for the moment, its numbers and
    /// all its inputs is cut to its outputs and the period, with silence where there is too little.
    fn process(&mut self, moment: &Moment, ports: Shape, input: &[i32], output: &mut [i32]) -> i32
        requires rate { 8000 ≤ moment.now.rate }
        requires frames { moment.now.frame + ports.period < 2 ^ 32 }
        requires few_inputs { ports.inputs ≤ 16 }
        requires few_outputs { ports.outputs ≤ 16 }
        requires input { length input.now ≡ ports.inputs * ports.period }
        requires output { length output.old ≡ ports.outputs * ports.period }
        ensures score { score self.new ≡ score self.old }
        ensures told { ForSome (told self.new) (λ told. told ≡ moment.now) }
        ensures numbers { numbers self.new ≡ (turn_by sound (score self.old) (numbers self.old) moment.now ports input.now).numbers }
        ensures output { IsPlayed ports output.new (turn_by sound (score self.old) (numbers self.old) moment.now ports input.now) }
        ensures answer { result ≡ pos (turn_by sound (score self.old) (numbers self.old) moment.now ports input.now).answer };

    /// How much work a cycle with such ports is to it, where a client that copies samples has as much as
    /// the period has frames. Only the choice between one thread and many reads it, so what is
    /// played is the same whatever it answers.
    fn work(&self, ports: Shape) -> u32 {
        ports.period
    }

    /// Forgets all.
    fn reset(&mut self)
        ensures score { score self.new ≡ score self.old }
        ensures numbers { numbers self.new ≡ (sound (score self.old)).first }
        ensures told { told self.new ≡ None };
}

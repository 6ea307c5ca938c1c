//! What is mixed for the playback, in the words of the definitions.

ghost use Rattle.std.specs.Prelude.{◌≡◌, ◌<◌, ℕ, ℤ, [], List, length, map, slice_index_or};
ghost use Rattle.jack_types.specs.declared.kinds.Kind.TheVariants.{Pass};
ghost use Rattle.session_model.specs.Benches.{outputs_of};
ghost use Rattle.session_model.specs.Cycles.{Settled, edges_into};
ghost use Rattle.session_model.specs.Kinds.{Sound};
ghost use Rattle.session_model.specs.Samples.{below, mix};
ghost use Rattle.session_model.specs.State.{Connection, playback_port};
ghost use Rattle.port_registry.specs.Registered.{open_clients};
ghost use Rattle.playback_mix.specs.cycle_plan.specs.Plans.{IsPlanned, Planned, state_of_plan};
ghost use Rattle.playback_mix.specs.client_benches.specs.Seen.{Seen, bench_in, new_bench};
ghost use Rattle.playback_mix.specs.client_wiring.specs.Wirings.{wired_of};
ghost use Rattle.playback_mix.specs.Mixes.{channel_mix};

/// In a cycle of a plan's graph, each channel that is mixed is what the definitions give its playback port: the mix of what
/// the sources of its edges give, read from the benches and from the channels of the capture.
///
/// A bench stands at the place of its node. The benches may be any, and as many as there are.
pub fn the_mix_is_played()
    ensures { (plan : Planned) (scores : List Sound) (benches : List Seen) (channels : List (List ℤ)) (at : Settled) → IsPlanned plan → at.graph ≡ state_of_plan plan
        → length channels ≡ plan.base.capture → ((c : ℕ) → c < length channels → at.capture c ≡ slice_index_or channels c [])
        → map (channel_mix at.frames benches channels (wired_of plan).heard) (below plan.base.playback)
        ≡ map (λ port. mix at.frames (map (λ (edge : Connection). (outputs_of at (open_clients plan.nodes) (λ n. bench_in scores (slice_index_or benches n (new_bench Pass 0)).kept)).audio edge.source) (edges_into at.graph port))) (map (λ i. (playback_port i).name) (below plan.base.playback)) }
{}

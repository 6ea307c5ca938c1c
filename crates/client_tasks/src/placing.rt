//! Where kept outputs stand among the outputs of their clients.

ghost use Rattle.std.specs.Prelude.{◌≡◌, ◌≤◌, length, map};
ghost use Rattle.std.specs.Vec.{vec_capacity};
ghost use Rattle.client_tasks.specs.Fillings.{last_place, output_born};

use client_wiring::{Given, Joint, Origin};

/// The output of a birth among those that were given.
fn output_of(given: &[Given], birth: u32) -> Option<usize>
    ensures { result ≡ output_born given.now birth }
{
    for one in given {
        if one.birth == birth {
            return Some(one.output);
        }
    }
    None
}

/// Where a kept output stood when the outputs were these.
fn last_of(joint: &Joint, given: &[Given]) -> Option<usize>
    ensures { result ≡ last_place given.now joint.now }
{
    match joint.origin {
        Origin::Kept { birth, .. } => output_of(given, birth),
        _ => None,
    }
}

/// At which place of its client's outputs each kept output stood when a cycle was last played, by births: those
/// outputs are of the plan of that cycle, the one before or the same.
pub fn place_last(last: &mut Vec<Option<usize>>, joints: &[Joint], given: &[Given])
    requires { length joints.now ≤ vec_capacity last.old }
    ensures places { last.new.items ≡ map (last_place given.now) joints.now }
    ensures room { vec_capacity last.new ≡ vec_capacity last.old }
{
    last.clear();
    for joint in joints {
        last.push_reserved(last_of(joint, given));
    }
}

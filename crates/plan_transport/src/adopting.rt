//! The changes that a cycle adopts.

ghost use Rattle.std.specs.Prelude.{◌≡◌, drop};

use jack_types::Change;

/// The changes behind the first `from`.
pub(crate) fn adopted_from(changes: &[Change], from: u32) -> &[Change]
    ensures { result.now ≡ drop from changes.now }
{
    let from = from as usize;
    if from < changes.len() {
        &changes[from..]
    } else {
        &[]
    }
}

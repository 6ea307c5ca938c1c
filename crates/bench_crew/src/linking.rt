//! The links that a crew plays over.
ghost use Rattle.std.specs.Prelude.{◌≡◌, ◌≤◌, ◌↔◌, IsTrue, length};
ghost use Rattle.session_model.specs.Activation.{AreLinks};
ghost use Rattle.bench_crew.specs.Ensembles.{AreReady};

use client_benches::activation::{Crew, Seat, Work};
use jack_types::Link;

/// Whether these are the links that were listed last.
pub(crate) fn are_same(listed: &[Link], links: &[Link]) -> bool
    ensures { IsTrue result ↔ (listed.now ≡ links.now) }
{
    listed == links
}

/// Makes the crew ready for these links, where its own are others.
pub(crate) fn relink<B: Work>(crew: &mut Crew<B>, seats: &mut [Seat<B>], links: &[Link])
    requires ready { AreReady crew.old.board.shared.table_id crew.old.links.items crew.old.nodes crew.old.seats seats.old }
    requires links { AreLinks crew.old.nodes links.now × (length links.now ≤ 512) }
    ensures crew { (crew.new.nodes ≡ crew.old.nodes) × (crew.new.seats ≡ crew.old.seats) × (crew.new.links.items ≡ links.now) }
    ensures ready { AreReady crew.new.board.shared.table_id crew.new.links.items crew.new.nodes crew.new.seats seats.new }
{
    if are_same(crew.links(), links) {
        return;
    }
    crew.reset(seats, links);
}

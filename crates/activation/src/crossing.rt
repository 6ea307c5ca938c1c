//! A crew, its seats and the nodes that they hold may cross threads wherever the benches may.
use crate::crews::Crew;
use crate::takens::{Seat, Taken};
use crate::work::Work;

fn is_send<T: Send>(_: &T) {}

fn is_sync<T: Sync>(_: &T) {}

// Checked, and never called: each line holds by its bound.
fn may_cross<B: Work + Send>(crew: &Crew<B>, seat: &Seat<B>, taken: &Taken<B>) {
    is_send(crew);
    is_sync(crew);
    is_send(seat);
    is_send(taken);
}

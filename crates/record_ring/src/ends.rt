//! How a ring is made, and how its two ends meet.
ghost use Rattle.std.specs.Prelude.{◌≡◌, ◌<◌, ◌≤◌, length, All, IfOk};
ghost use Rattle.driver_words.specs.Rings.{IsOpening, IsPair, Renews, Tells};

use crate::block::Block;
use crate::consumer::Consumer;
use crate::producer::Producer;
use crate::steps::{Ends, Renew, Tell};
use crate::view::{Board, SENT, Size};
use std::alloc::{AllocError, Global};
use std::sync::Arc;

fn spares(alloc: Global, capacity: u32, samples: u32) -> Result<Vec<Block>, AllocError>
    ensures { IfOk result (λ v. (length v.items ≡ capacity) × All (λ b. b.samples.room ≡ samples) v.items) }
{
    let mut spares = Vec::new(alloc);
    for _ in 0..capacity {
        let spare = Block::new(alloc, samples)?;
        spares.push(spare)?;
    }
    Ok(spares)
}

/// A ring of `capacity` blocks made for `samples` samples each.
///
/// All blocks that will be put have at most `most` samples together.
pub fn ring(
    alloc: Global,
    capacity: u32,
    samples: u32,
    most: u64,
) -> Result<(Producer, Consumer), AllocError>
    requires { (0 < capacity) × (capacity ≤ 64) }
    ensures { IfOk result (λ ends. IsOpening capacity samples most ends.0 ends.1) }
{
    let slots = spares(alloc, capacity, samples)?;
    let size = Size { samples, most };
    let Ok((table, mut seat)) = Board::new(alloc, &[0, 0], slots, &size) else {
        return Err(AllocError);
    };
    let table = Arc::new(alloc, table)?;
    let theirs = Arc::try_clone(&table)?;
    let other = table.shared.split_seat::<Ends>(&mut seat);
    let capacity = capacity as u64;
    let producer = Producer {
        table,
        seat,
        capacity,
        sent: 0,
    };
    let consumer = Consumer {
        table: theirs,
        seat: other,
        capacity,
        taken: 0,
    };
    Ok((producer, consumer))
}

/// Takes the end mark away, and tells each end how far the other has come.
///
/// The consumer's seat joins the producer's, which stores the number sent without a mark, and splits off again.
pub fn renew(producer: &mut Producer, consumer: &mut Consumer)
    requires { IsPair producer.old consumer.old }
    ensures { Renews producer.old consumer.old producer.new consumer.new }
{
    let words = &producer.table.shared;
    let theirs = words.split_seat::<Ends>(&mut consumer.seat);
    words.join_seat::<Ends>(&mut producer.seat, theirs);
    words.store::<Renew>(&mut producer.seat, SENT, 2 * producer.sent);
    consumer.seat = words.split_seat::<Ends>(&mut producer.seat);
}

/// As `renew`, but an end mark that stands stays, and every get finds it until `renew` takes it away.
///
/// In place of the store it loads the number sent.
pub fn tell(producer: &mut Producer, consumer: &mut Consumer)
    requires { IsPair producer.old consumer.old }
    ensures { Tells producer.old consumer.old producer.new consumer.new }
{
    let words = &producer.table.shared;
    let theirs = words.split_seat::<Ends>(&mut consumer.seat);
    words.join_seat::<Ends>(&mut producer.seat, theirs);
    words.load::<Tell>(&mut producer.seat, SENT);
    consumer.seat = words.split_seat::<Ends>(&mut producer.seat);
}

//! How a publication is made, and how its two ends meet.
ghost use Rattle.std.specs.Prelude.{◌≡◌, [], IfOk};
ghost use Rattle.graph_word.specs.Publications.{IsOpening, Meets};

use crate::plans::Numbered;
use crate::publisher::Publisher;
use crate::reader::{Hold, Reader};
use crate::steps::{Ends, Home, Meet, Open, Settle};
use crate::view::{Board, WORD};
use std::alloc::{AllocError, Global};
use std::sync::Arc;

/// A publication over three plans that are alike and have no change yet.
pub fn publication<P: Numbered>(
    alloc: Global,
    first: P,
    second: P,
    third: P,
) -> Result<(Publisher<P>, Reader<P>), AllocError>
    requires first { P.content first ≡ [] }
    requires second { (P.content second ≡ []) × (P.base second ≡ P.base first) }
    requires third { (P.content third ≡ []) × (P.base third ≡ P.base first) }
    ensures opening { IfOk result (λ ends. IsOpening (P.base first) ends.0.0 ends.1.0) }
    ensures publisher { IfOk result (λ ends. (P.content ends.0.1 ≡ []) × (P.base ends.0.1 ≡ P.base first)) }
{
    let mut slots = Vec::with_capacity(alloc, 3)?;
    slots.push_reserved(Some(first));
    slots.push_reserved(None);
    slots.push_reserved(None);
    let Ok((table, mut seat)) = Board::new(alloc, &[0, 0], slots, &second) else {
        return Err(AllocError);
    };
    let table = Arc::new(alloc, table)?;
    let theirs = Arc::try_clone(&table)?;
    let words = &table.shared;
    let mut other = words.split_seat::<Ends>(&mut seat);
    words.load::<Open>(&mut seat, WORD);
    words.load::<Settle>(&mut other, WORD);
    let publisher = Publisher {
        table,
        seat,
        plan: second,
        place: 1,
        published: 0,
    };
    let reader = Reader {
        table: theirs,
        hold: Hold {
            seat: other,
            plan: third,
            place: 2,
            number: 0,
        },
    };
    Ok((publisher, reader))
}

/// Tells each end how far the other has come.
///
/// The reader's part of its seat joins the publisher's, which loads the graph word, and goes back. The slots
/// stay where they are.
pub fn meet<P: Numbered>(publisher: &mut Publisher<P>, reader: &mut Reader<P>)
    requires { publisher.old.0.table ≡ reader.old.0.table }
    ensures meets { Meets publisher.old.0 reader.old.0 publisher.new.0 reader.new.0 }
    ensures plans { (publisher.new.1 ≡ publisher.old.1) × (reader.new.1 ≡ reader.old.1) }
{
    let words = &publisher.table.shared;
    let theirs = words.split_seat::<Ends>(&mut reader.hold.seat);
    words.join_seat::<Ends>(&mut publisher.seat, theirs);
    words.load::<Meet>(&mut publisher.seat, WORD);
    let back = words.split_seat::<Ends>(&mut publisher.seat);
    words.join_seat::<Home>(&mut reader.hold.seat, back);
}

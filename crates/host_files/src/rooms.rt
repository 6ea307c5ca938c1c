//! The rooms of a host of real files: for the bytes that are gathered, and for a file's name.

ghost use Rattle.std.specs.Prelude.{◌≡◌, IfOk, length};

use std::alloc::{AllocError, Global};

/// How many bytes one call of the system moves at most, so that a period of frames costs none.
const GATHERED: usize = 65_536;

/// How many bytes a name has at most that the system takes.
const LONGEST_NAME: usize = 4_096;

/// Room for a file's bytes, and for its name.
#[derive(Drop)]
pub(crate) struct Room {
    pub(crate) bytes: Vec<u8>,
    pub(crate) name: String,
}

impl Room {
    /// No room at all.
    pub(crate) fn none(alloc: Global) -> Room {
        Room {
            bytes: Vec::new(alloc),
            name: String::new(alloc),
        }
    }

    fn make(alloc: Global) -> Result<Room, AllocError> {
        let bytes = vec![in alloc; 0; GATHERED]?;
        let name = room_of_name(alloc)?;
        Ok(Room { bytes, name })
    }
}

/// Room for a name.
pub(crate) fn room_of_name(alloc: Global) -> Result<String, AllocError> {
    String::with_capacity(alloc, LONGEST_NAME)
}

/// Keeps a name, where it has room. It takes no memory.
pub(crate) fn keep_name(room: &mut String, name: &str) {
    room.clear();
    if name.len() <= room.capacity() {
        let _ = room.push_str(name);
    }
}

/// Rooms for the bytes of so many files.
pub(crate) fn make_rooms(alloc: Global, files: usize) -> Result<Vec<Room>, AllocError>
    ensures { IfOk result (λ rooms. length rooms.items ≡ files) }
{
    let mut rooms = Vec::with_capacity(alloc, files)?;
    for place in 0..files {
        rooms.push_reserved(Room::make(alloc)?);
    }
    Ok(rooms)
}

ghost use Rattle.std.specs.Prelude.{◌≡◌, ◌↔◌, ◌+◌, ◌≤◌, ◌++◌, [], length, IsTrue};

/// Bytes that wait for their place in a file.
#[derive(Drop)]
pub(crate) struct Gathered {
    pub(crate) room: Vec<u8>,
    pub(crate) count: usize,
    ghost within: { count ≤ length room.items },
}

impl Gathered {
    ghost use Rattle.file_stores.specs.Gathering.{waits};

    pub(crate) fn new(room: Vec<u8>) -> Gathered
        ensures { waits result ≡ [] }
    {
        Gathered { room, count: 0 }
    }

    /// Whether as many bytes more have room.
    pub(crate) fn has_room(&self, more: usize) -> bool
        ensures { IsTrue result ↔ (self.now.count + more ≤ length self.now.room.items) }
    {
        more <= self.room.len() - self.count
    }

    pub(crate) fn add(&mut self, bytes: &[u8])
        requires { self.old.count + length bytes.now ≤ length self.old.room.items }
        ensures { waits self.new ≡ waits self.old ++ bytes.now }
    {
        let end = self.count + bytes.len();
        self.room[self.count..end].copy_from_slice(bytes);
        self.count = end;
    }

    pub(crate) fn clear(&mut self)
        ensures empty { waits self.new ≡ [] }
        ensures room { self.new.room ≡ self.old.room }
    {
        self.count = 0;
    }

    pub(crate) fn as_bytes(&self) -> &[u8]
        ensures { result.now ≡ waits self.now }
    {
        &self.room[..self.count]
    }
}

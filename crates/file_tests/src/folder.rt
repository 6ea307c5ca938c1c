//! A host of real files, step by step.

use host_files::{FailureKind, FileHost, FileSource, FileStore, Syncing};
use jack_host::{Failed, Host, Source, Store};
use std::alloc::{Alloc, Global};
use std::fs;
use std::fs::{File, Files};
use std::marker::Model;
use std::process::Abort;

/// No test has more inputs or outputs out at a time.
const MOST: usize = 8;

/// A step of a test. A name is a file's.
#[derive(Clone, Copy)]
pub enum Step {
    /// Another program writes these bytes.
    Written(&'static str, &'static str),
    /// Another program gives the file a second name.
    Linked(&'static str, &'static str),
    /// Another program reads these bytes.
    Holds(&'static str, &'static str),
    /// Another program removes it.
    Removed(&'static str),
    /// It is opened.
    Open(&'static str),
    /// It can't be opened.
    CannotOpen(&'static str),
    /// The input that was opened last gives these bytes, at most so many at a read.
    Reads(&'static str, usize),
    /// The input of this place goes back. Inputs are in the order in which they were opened.
    Back(usize),
    /// It is made.
    Make(&'static str),
    /// It can't be made, and that and why is the last failure.
    CannotMake(&'static str, FailureKind),
    /// Bytes at this place of the output that was made last.
    Put(u64, &'static str),
    /// The output that was made last goes back.
    Done,
    /// The output that was made last can't go back, and that and why is the last failure.
    CannotDo(&'static str, FailureKind),
    /// The output that was made last is given up.
    GiveUp,
    /// No making and no writing failed so far.
    NothingFailed,
}

/// A host of real files, and what is out of it.
///
/// Contracts see nothing of it.
#[derive(Drop)]
pub struct Folder<'a, R> {
    alloc: Global,
    rt: &'a R,
    host: FileHost<'a, R>,
    inputs: Vec<FileSource<File>>,
    outputs: Vec<FileStore>,
}

impl<'a, R> Model for Folder<'a, R> {
    ghost use Rattle.std.specs.Prelude.{◌+◌, ◌≡◌, ⊤, length};

    ghost Value = { ⊤ };

    ghost view = { λ _. tt };

    ghost invariant = { λ f. f.host.lent ≡ length f.inputs.items + length f.outputs.items };
}

impl<'a, R: Alloc + Files<File = File> + Abort> Folder<'a, R> {
    /// A host with so many rooms, of which nothing is out.
    pub fn new(rt: &'a R, alloc: Global, rooms: usize) -> Folder<'a, R> {
        let Ok(host) = FileHost::new(alloc, rt, rooms, Syncing::AtClose) else {
            panic!(rt; "no memory");
        };
        Folder {
            alloc,
            rt,
            host,
            inputs: Vec::new(alloc),
            outputs: Vec::new(alloc),
        }
    }

    /// Takes these steps, one after the other.
    pub fn walk(&mut self, steps: &[Step]) {
        for step in steps {
            self.step(*step);
        }
    }

    fn step(&mut self, step: Step) {
        match step {
            Step::Written(name, bytes) => self.write(name, bytes),
            Step::Linked(name, other) => self.link(name, other),
            Step::Holds(name, bytes) => self.holds(name, bytes),
            Step::Removed(name) => self.remove(name),
            Step::Open(name) => self.open(name),
            Step::CannotOpen(name) => self.cannot_open(name),
            Step::Reads(bytes, most) => self.reads(bytes, most),
            Step::Back(place) => self.back(place),
            Step::Make(name) => self.make(name),
            Step::CannotMake(name, kind) => self.cannot_make(name, kind),
            Step::Put(place, bytes) => self.put(place, bytes.as_bytes()),
            Step::Done => self.done(),
            Step::CannotDo(name, kind) => self.cannot_do(name, kind),
            Step::GiveUp => self.give_up(),
            Step::NothingFailed => self.nothing_failed(),
        }
    }

    fn write(&self, name: &str, bytes: &str) {
        fs::write(self.rt, name, bytes).expect(self.rt, "written");
    }

    fn link(&self, name: &str, other: &str) {
        fs::hard_link(self.rt, name, other).expect(self.rt, "linked");
    }

    fn holds(&self, name: &str, bytes: &str) {
        let found = fs::read_to_string(self.rt, name).expect(self.rt, "read");
        assert_eq!(self.rt; found.as_str(), bytes);
    }

    fn remove(&self, name: &str) {
        fs::remove_file(self.rt, name).expect(self.rt, "removed");
    }

    fn open(&mut self, name: &str) {
        assert!(self.rt; self.inputs.len() < MOST);
        assert!(self.rt; self.outputs.len() < MOST);
        let input = self.host.open_in(name).expect(self.rt, "opened");
        self.inputs.push(input).expect(self.rt, "memory");
    }

    fn cannot_open(&mut self, name: &str) {
        assert!(self.rt; self.inputs.len() < MOST);
        assert!(self.rt; self.outputs.len() < MOST);
        let Err(Failed) = self.host.open_in(name) else {
            panic!(self.rt; "{name} was opened");
        };
    }

    fn reads(&mut self, bytes: &str, most: usize) {
        let found = self.read_by(most);
        assert_eq!(self.rt; found.as_slice(), bytes.as_bytes());
    }

    /// What the input that was opened last gives in 64 reads of so many bytes.
    pub fn read_by(&mut self, most: usize) -> Vec<u8> {
        let input = self.inputs.last_mut().expect(self.rt, "an input");
        read_all(self.rt, self.alloc, input, most)
    }

    fn back(&mut self, place: usize) {
        assert!(self.rt; place < self.inputs.len());
        let input = self.inputs.remove(place);
        self.host.back(input);
    }

    fn make(&mut self, name: &str) {
        assert!(self.rt; self.inputs.len() < MOST);
        assert!(self.rt; self.outputs.len() < MOST);
        let output = self.host.make_out(name).expect(self.rt, "made");
        self.outputs.push(output).expect(self.rt, "memory");
    }

    fn cannot_make(&mut self, name: &str, kind: FailureKind) {
        assert!(self.rt; self.inputs.len() < MOST);
        assert!(self.rt; self.outputs.len() < MOST);
        let Err(Failed) = self.host.make_out(name) else {
            panic!(self.rt; "{name} was made");
        };
        self.has_failed(name, kind);
    }

    // The last making or writing that failed, and why.
    fn has_failed(&self, name: &str, kind: FailureKind) {
        let failure = self.host.last_write_failure().expect(self.rt, "a failure");
        assert_eq!(self.rt; failure.name(), name);
        assert_eq!(self.rt; failure.kind(), kind);
    }

    /// Writes bytes at a place of the output that was made last.
    pub fn put(&mut self, place: u64, bytes: &[u8]) {
        let output = self.outputs.last_mut().expect(self.rt, "an output");
        output.write_at(place, bytes).expect(self.rt, "written");
    }

    // Hands back the output that was made last.
    fn hand_back(&mut self) -> Result<(), Failed> {
        let output = self.outputs.pop().expect(self.rt, "an output");
        self.host.done(output)
    }

    fn done(&mut self) {
        self.hand_back().expect(self.rt, "done");
    }

    fn give_up(&mut self) {
        let output = self.outputs.pop().expect(self.rt, "an output");
        self.host.give_up(output);
    }

    fn cannot_do(&mut self, name: &str, kind: FailureKind) {
        assert_eq!(self.rt; self.hand_back(), Err(Failed));
        self.has_failed(name, kind);
    }

    fn nothing_failed(&self) {
        assert!(self.rt; self.host.last_write_failure().is_none());
    }
}

// What a source gives in 64 reads of so many bytes.
fn read_all(rt: &impl Abort, alloc: Global, source: &mut impl Source, most: usize) -> Vec<u8> {
    let mut piece = vec![in alloc; 0u8; most].expect(rt, "memory");
    let mut bytes = Vec::new(alloc);
    for _ in 0..64_u32 {
        let count = source.read(&mut piece).expect(rt, "read");
        bytes
            .extend_from_slice(&piece[..count])
            .expect(rt, "memory");
    }
    bytes
}

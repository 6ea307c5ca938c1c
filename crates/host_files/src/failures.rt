//! What is kept of a failure of the system.

ghost use Rattle.std.specs.Prelude.{◌≡◌, ◌↔◌, ◌+◌, ◌≤◌, Err, Ok, IfErr, IfOk, IfSome, IsErr, IsNone, OnErr, OnOk, option_map, string_bytes};
ghost use Rattle.std.specs.Option.{option_or};
ghost use Rattle.jack_host.specs.Causes.{Adds, IsCounted, last_of};

use crate::rooms::{keep_name, room_of_name};
use jack_host::Failed;
use std::alloc::{AllocError, Global};
use std::io;

/// What a call on a real file was about when it failed.
#[derive(Clone, Copy, Debug, PartialEq, Eq)]
pub enum FailureKind {
    /// A file can't be opened for reading.
    Opening,
    /// A read failed.
    Reading,
    /// A file can't be made, or opened for writing.
    Making,
    /// A write failed, or what stood in a file can't be given up.
    Writing,
    /// What was written may not have reached its medium.
    Closing,
    /// A file that is to be written was opened for reading through this host.
    IsInput,
    /// A file that is to be written is another output that is out.
    IsOutput,
    /// Another program writes a file that is to be written.
    InUse,
}

/// What failed, and the system's reason.
#[derive(Clone, Copy)]
pub(crate) struct Reason {
    pub(crate) kind: FailureKind,
    pub(crate) error: io::Error,
}

impl Reason {
    pub(crate) fn new(kind: FailureKind, error: io::Error) -> Reason
        ensures kind { result.kind ≡ kind }
        ensures error { result.error ≡ error }
    {
        Reason { kind, error }
    }
}

/// An answer of the system, with what it was about where it failed.
pub(crate) fn about<T>(kind: FailureKind, answer: io::Result<T>) -> Result<T, Reason>
    ensures ok { IfOk result (λ value. answer ≡ Ok value) }
    ensures err { IfErr result (λ reason. answer ≡ Err reason.error) }
    ensures kind { IfErr result (λ reason. reason.kind ≡ kind) }
{
    match answer {
        Ok(value) => Ok(value),
        Err(error) => Err(Reason::new(kind, error)),
    }
}

/// The failure of a call on a file of this name.
#[derive(Clone, Copy)]
pub struct Failure<'a> {
    name: &'a str,
    reason: Reason,
}

impl<'a> Failure<'a> {
    pub(crate) fn new(name: &'a str, reason: Reason) -> Failure<'a>
        ensures name { result.name ≡ name.entry }
        ensures reason { result.reason ≡ reason }
    {
        Failure { name, reason }
    }

    /// What the call was about.
    pub fn kind(&self) -> FailureKind
        ensures { result ≡ self.now.reason.kind }
    {
        self.reason.kind
    }

    /// The name that the file was opened or made by. It is empty where it has more than 4096 bytes.
    pub fn name(&self) -> &'a str
        ensures { result ≡ self.now.name }
    {
        self.name
    }

    /// Why it failed, in the system's words, or in this crate's where the host refused it.
    ///
    /// No clause speaks of the words, since the system gives them.
    pub fn reason(&self) -> io::Error
        ensures { result ≡ self.now.reason.error }
    {
        self.reason.error
    }
}

/// How many calls of the system have failed, and why the last of them did.
#[derive(Drop)]
pub(crate) struct Faults {
    pub(crate) count: u64,
    pub(crate) last: Option<Reason>,
    ghost told: { IsNone last ↔ (count ≡ 0) },
}

impl Faults {
    pub(crate) fn new() -> Faults
        ensures count { result.count ≡ 0 }
        ensures last { IsNone result.last }
    {
        Faults {
            count: 0,
            last: None,
        }
    }

    /// Hands an answer of the system on, and counts it where it failed.
    pub(crate) fn counted<T>(&mut self, answer: Result<T, Reason>) -> Result<T, Failed>
        ensures ok { IfOk result (λ value. answer ≡ Ok value) }
        ensures err { OnErr result (IsErr answer) }
        ensures counted { IsCounted self.old.count self.new.count result }
        ensures last { self.new.last ≡ last_of answer self.old.last }
    {
        match answer {
            Ok(value) => Ok(value),
            Err(reason) => {
                self.count = self.count.saturating_add(1);
                self.last = Some(reason);
                Err(Failed)
            }
        }
    }

    /// Takes up the faults of an object that comes back.
    fn add(&mut self, more: &Faults)
        ensures adds { Adds self.old.count more.now.count self.new.count }
        ensures no_more { self.new.count ≤ self.old.count + more.now.count }
        ensures last { self.new.last ≡ option_or more.now.last self.old.last }
    {
        self.count = self.count.saturating_add(more.count);
        if let Some(reason) = more.last {
            self.last = Some(reason);
        }
    }
}

/// How many calls on files have failed, why the last of them did, and the name of its file.
#[derive(Drop)]
pub(crate) struct NamedFaults {
    pub(crate) faults: Faults,
    name: String,
}

impl NamedFaults {
    pub(crate) fn new(alloc: Global) -> Result<NamedFaults, AllocError>
        ensures { IfOk result (λ named. named.faults.count ≡ 0) }
    {
        let name = room_of_name(alloc)?;
        Ok(NamedFaults {
            faults: Faults::new(),
            name,
        })
    }

    /// The last failure, where there was one.
    pub(crate) fn last(&self) -> Option<Failure<'_>>
        ensures told { IsNone result ↔ (self.now.faults.count ≡ 0) }
        ensures reason { option_map (λ failure. failure.reason) result ≡ self.now.faults.last }
        ensures name { IfSome result (λ failure. failure.name.now ≡ string_bytes self.now.name) }
    {
        match self.faults.last {
            Some(reason) => Some(Failure::new(&self.name, reason)),
            None => None,
        }
    }

    /// Hands an answer about the file of this name on, and counts it where it failed.
    pub(crate) fn counted<T>(&mut self, name: &str, answer: Result<T, Reason>) -> Result<T, Failed>
        ensures ok { IfOk result (λ value. answer ≡ Ok value) }
        ensures err { OnErr result (IsErr answer) }
        ensures counted { IsCounted self.old.faults.count self.new.faults.count result }
        ensures last { self.new.faults.last ≡ last_of answer self.old.faults.last }
    {
        if answer.is_err() {
            keep_name(&mut self.name, name);
        }
        self.faults.counted(answer)
    }

    /// Takes up the faults of an object of this name that comes back.
    pub(crate) fn add(&mut self, name: &str, more: &Faults)
        ensures adds { Adds self.old.faults.count more.now.count self.new.faults.count }
        ensures no_more { self.new.faults.count ≤ self.old.faults.count + more.now.count }
        ensures last { self.new.faults.last ≡ option_or more.now.last self.old.faults.last }
    {
        if more.last.is_some() {
            keep_name(&mut self.name, name);
        }
        self.faults.add(more);
    }
}

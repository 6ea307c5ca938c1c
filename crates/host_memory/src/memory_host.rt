ghost use Rattle.std.specs.Prelude.{◌≡◌, ◌+◌, ◌++◌, ◌∷◌, ℕ, List, IsNone, IsSome, Some, IfOk, OnOk, OnErr, string_bytes, [], true, false};
ghost use Rattle.std.specs.Option.{option_copied};
ghost use Rattle.std.specs.Str.{bytes_eq};
ghost use Rattle.jack_host.specs.Files.{bytes_under, Replaces};
ghost use Rattle.host_memory.specs.Listed.{listed};
ghost use Rattle.host_memory.specs.Memory.{source_left, source_faults, source_refused, source_next, store_name, store_bytes, store_faults, store_wants, store_refused, store_next};

use crate::refusals::{
    Refusals, is_refused, refuse_call, refuse_closing, refused_calls, refuses_closing,
};
use crate::{MemorySource, MemoryStore};
use jack_host::{Failed, Host};
use jack_types::Memory;
use std::alloc::{AllocError, Global};
use std::collections::BTreeMap;

/// Files in memory.
///
/// It tells its files, and fails only where a call is refused, a name is missing, or memory is wanting.
#[derive(Drop)]
pub struct MemoryHost {
    alloc: Global,
    files: BTreeMap<String, Vec<u8>>,
    refusals: BTreeMap<String, Refusals>,
    read_faults: u64,
    write_faults: u64,
    wants: u64,
    lent: u64,
}

impl MemoryHost {
    ghost use Rattle.host_memory.specs.MemoryHost.{host_files, host_refused, host_closing_refused, host_read_faults, host_write_faults, host_lent, host_wants, SameRefusals, SameCounts};

    /// A host without files, that refuses nothing.
    pub fn new(alloc: Global) -> MemoryHost
        ensures files { host_files result ≡ [] }
        ensures calls { (name : List ℕ) → host_refused result name ≡ [] }
        ensures closings { (name : List ℕ) → host_closing_refused result name ≡ false }
        ensures reads { host_read_faults result ≡ 0 }
        ensures writes { host_write_faults result ≡ 0 }
        ensures wants { host_wants result ≡ 0 }
        ensures lent { host_lent result ≡ 0 }
    {
        MemoryHost {
            alloc,
            files: BTreeMap::new(alloc),
            refusals: BTreeMap::new(alloc),
            read_faults: 0,
            write_faults: 0,
            wants: 0,
            lent: 0,
        }
    }

    /// Adds a file of a new name.
    #[tactic(auto, using(crate::proofs::ListedLemmas::bytes_under_updates))]
    pub fn add(&mut self, name: &str, bytes: &[u8]) -> Result<(), Memory>
        requires { IsNone (bytes_under (host_files self.old) name.now) }
        ensures ok { OnOk result (Replaces (Some (host_files self.old)) (Some (host_files self.new)) name.now bytes.now) }
        ensures err { OnErr result (host_files self.new ≡ host_files self.old) }
        ensures refusals { SameRefusals self.old self.new }
        ensures counts { SameCounts self.old self.new }
    {
        put_file(self.alloc, &mut self.files, name, bytes).map_err(|_| Memory)
    }

    /// Makes the call of this number on this name fail: 0 is the opening or making, and the reads or writes
    /// follow in order from 1. The name need not be there yet.
    pub fn refuse(&mut self, name: &str, call: u32) -> Result<(), Memory>
        ensures ok { OnOk result (host_refused self.new name.now ≡ host_refused self.old name.now ++ call ∷ []) }
        ensures err { OnErr result (SameRefusals self.old self.new) }
        ensures others { (other : List ℕ) → bytes_eq name.now other ≡ false → host_refused self.new other ≡ host_refused self.old other }
        ensures closings { (other : List ℕ) → host_closing_refused self.new other ≡ host_closing_refused self.old other }
        ensures files { host_files self.new ≡ host_files self.old }
        ensures counts { SameCounts self.old self.new }
    {
        refuse_call(self.alloc, &mut self.refusals, name, call).map_err(|_| Memory)
    }

    /// Makes the closing of this name's output fail, by `done` or by `give_up`.
    pub fn refuse_done(&mut self, name: &str) -> Result<(), Memory>
        ensures ok { OnOk result (host_closing_refused self.new name.now ≡ true) }
        ensures err { OnErr result (SameRefusals self.old self.new) }
        ensures others { (other : List ℕ) → bytes_eq name.now other ≡ false → host_closing_refused self.new other ≡ host_closing_refused self.old other }
        ensures calls { (other : List ℕ) → host_refused self.new other ≡ host_refused self.old other }
        ensures files { host_files self.new ≡ host_files self.old }
        ensures counts { SameCounts self.old self.new }
    {
        refuse_closing(self.alloc, &mut self.refusals, name).map_err(|_| Memory)
    }

    /// The bytes under a name.
    #[tactic(auto, using(crate::proofs::ListedLemmas::bytes_under_listed))]
    pub fn file(&self, name: &str) -> Option<&[u8]>
        ensures { option_copied result ≡ bytes_under (host_files self.now) name.now }
    {
        match self.files.get(name) {
            Some(bytes) => Some(bytes),
            None => None,
        }
    }
}

// Puts a file of these bytes under a name.
#[tactic(auto, using(crate::proofs::ListedLemmas::bytes_under_updates))]
fn put_file(
    alloc: Global,
    files: &mut BTreeMap<String, Vec<u8>>,
    name: &str,
    bytes: &[u8],
) -> Result<(), AllocError>
    ensures ok { OnOk result (Replaces (Some (listed files.old.entries)) (Some (listed files.new.entries)) name.now bytes.now) }
    ensures err { OnErr result (files.new.entries ≡ files.old.entries) }
{
    let key = String::from_str(alloc, name)?;
    let value = Vec::from_slice(alloc, bytes)?;
    files.insert(key, value)?;
    Ok(())
}

// Puts an empty file of this name in place of what was there, and gives its store.
#[tactic(auto, using(crate::proofs::ListedLemmas::bytes_under_updates))]
fn make_empty(
    alloc: Global,
    files: &mut BTreeMap<String, Vec<u8>>,
    name: &str,
    refused: &[u32],
) -> Result<MemoryStore, AllocError>
    ensures name { IfOk result (λ s. store_name s ≡ name.now) }
    ensures empty { IfOk result (λ s. store_bytes s ≡ []) }
    ensures faults { IfOk result (λ s. store_faults s ≡ 0) }
    ensures wants { IfOk result (λ s. store_wants s ≡ 0) }
    ensures next { IfOk result (λ s. store_next s ≡ 1) }
    ensures refused { IfOk result (λ s. store_refused s ≡ refused.now) }
    ensures made { OnOk result (Replaces (Some (listed files.old.entries)) (Some (listed files.new.entries)) name.now []) }
    ensures same { OnErr result (files.new.entries ≡ files.old.entries) }
{
    let name_text = String::from_str(alloc, name)?;
    let refused = Vec::from_slice(alloc, refused)?;
    let store = MemoryStore::named(alloc, name_text, refused);
    put_file(alloc, files, name, &[])?;
    Ok(store)
}

// Keeps these bytes under a name that is there.
fn keep(files: &mut BTreeMap<String, Vec<u8>>, name: &str, bytes: Vec<u8>)
    requires { IsSome (bytes_under (listed files.old.entries) name.now) }
    ensures { Replaces (Some (listed files.old.entries)) (Some (listed files.new.entries)) name.now bytes.items }
{
    if let Some(slot) = files.get_mut(name) {
        *slot = bytes;
    }
}

// An input of copies of its own.
fn copied(alloc: Global, bytes: &[u8], refused: &[u32]) -> Result<MemorySource, AllocError>
    ensures left { IfOk result (λ input. source_left input ≡ bytes.now) }
    ensures faults { IfOk result (λ input. source_faults input ≡ 0) }
    ensures next { IfOk result (λ input. source_next input ≡ 1) }
    ensures refused { IfOk result (λ input. source_refused input ≡ refused.now) }
{
    let bytes = Vec::from_slice(alloc, bytes)?;
    let refused = Vec::from_slice(alloc, refused)?;
    Ok(MemorySource::with_refusals(bytes, refused))
}

impl Host for MemoryHost {
    ghost use Rattle.std.specs.Prelude.{Some, [], ◌≡◌};
    ghost use Rattle.host_memory.specs.Listed.{listed};

    type In = MemorySource;

    type Out = MemoryStore;

    ghost files = { λ h. Some (listed h.files.entries) };

    ghost read_faults = { λ h. h.read_faults };

    ghost write_faults = { λ h. h.write_faults };

    ghost lent = { λ h. h.lent };

    ghost use Rattle.std.specs.Prelude.{◌⊎◌, ◌+◌, ◌-◌, ◌^◌, ◌<◌, ◌≤◌, ◌↔◌, IsNone, IsErr, IfOk, OnOk, OnErr, IsTrue, Contains, is_ok, min, if◌then◌else◌};
    ghost use Rattle.jack_host.specs.Causes.{Rose, HasCause, Adds};
    ghost use Rattle.jack_host.specs.Files.{IsThere, Gives, SameFiles, Replaces, IsNamedThere, Stands, bytes_under};
    ghost use Rattle.jack_host.specs.Told.{TellsAs};
    ghost use Rattle.host_memory.specs.Memory.{source_left, source_faults, source_refused, source_next, store_name, store_bytes, store_faults, store_wants, store_refused, store_next};
    ghost use Rattle.host_memory.specs.MemoryHost.{host_files, host_refused, host_closing_refused, host_read_faults, host_write_faults, host_lent, host_wants, SameRefusals};

    #[tactic(auto, using(crate::proofs::ListedLemmas::bytes_under_listed))]
    fn open_in(&mut self, name: &str) -> Result<MemorySource, Failed>
        requires { host_lent self.old < 1000 }
        ensures there { OnOk result (IsThere (Some (host_files self.old)) name.now) }
        ensures bytes { IfOk result (λ input. Gives (Some (host_files self.old)) name.now (Some (source_left input))) }
        ensures fresh { IfOk result (λ input. source_faults input ≡ 0) }
        ensures missing { ¬ IsThere (Some (host_files self.old)) name.now → host_read_faults self.new ≡ host_read_faults self.old }
        ensures later { host_read_faults self.old ≤ host_read_faults self.new }
        ensures failed { IsThere (Some (host_files self.old)) name.now → OnErr result (Rose (host_read_faults self.old) (host_read_faults self.new)) }
        ensures kept { OnOk result (host_read_faults self.new ≡ host_read_faults self.old) }
        ensures once { host_read_faults self.new ≤ host_read_faults self.old + 1 }
        ensures writes { host_write_faults self.new ≡ host_write_faults self.old }
        ensures files { SameFiles (Some (host_files self.old)) (Some (host_files self.new)) }
        ensures lent { host_lent self.new ≡ host_lent self.old + (if is_ok result then 1 else 0) }

        // It fails where it is refused, and else only where the name is missing or for want of memory.
        ensures refused { Contains (host_refused self.old name.now) 0 → IsErr result }
        ensures why { OnErr result (IsNone (bytes_under (host_files self.old) name.now)
            ⊎ (Contains (host_refused self.old name.now) 0 ⊎ Rose (host_wants self.old) (host_wants self.new))) }
        ensures wants { OnOk result (host_wants self.new ≡ host_wants self.old) }
        ensures input_refused { IfOk result (λ input. source_refused input ≡ host_refused self.old name.now) }
        ensures input_next { IfOk result (λ input. source_next input ≡ 1) }
        ensures refusals { SameRefusals self.old self.new }
    {
        let Some(bytes) = self.files.get(name) else {
            return Err(Failed);
        };
        let refused = refused_calls(&self.refusals, name);
        if is_refused(refused, 0) {
            self.read_faults = self.read_faults.saturating_add(1);
            return Err(Failed);
        }
        match copied(self.alloc, bytes, refused) {
            Ok(input) => {
                self.lent += 1;
                Ok(input)
            }
            Err(_) => {
                self.wants = self.wants.saturating_add(1);
                self.read_faults = self.read_faults.saturating_add(1);
                Err(Failed)
            }
        }
    }

    fn back(&mut self, input: MemorySource)
        requires { 0 < host_lent self.old }
        ensures reads { Adds (host_read_faults self.old) (source_faults input) (host_read_faults self.new) }
        ensures no_more { host_read_faults self.new ≤ host_read_faults self.old + source_faults input }
        ensures writes { host_write_faults self.new ≡ host_write_faults self.old }
        ensures files { SameFiles (Some (host_files self.old)) (Some (host_files self.new)) }
        ensures lent { host_lent self.new + 1 ≡ host_lent self.old }
        ensures exactly { host_read_faults self.new ≡ min (host_read_faults self.old + source_faults input) (2 ^ 64 - 1) }
        ensures wants { host_wants self.new ≡ host_wants self.old }
        ensures refusals { SameRefusals self.old self.new }
    {
        self.read_faults = self.read_faults.saturating_add(input.faults);
        self.lent -= 1;
    }

    fn make_out(&mut self, name: &str) -> Result<MemoryStore, Failed>
        requires { host_lent self.old < 1000 }
        ensures name { IfOk result (λ output. TellsAs (Some (host_files self.old)) (Some (store_name output)) name.now) }
        ensures empty { IfOk result (λ output. TellsAs (Some (host_files self.old)) (Some (store_bytes output)) []) }
        ensures fresh { IfOk result (λ output. store_faults output ≡ 0) }
        ensures made { OnOk result (Replaces (Some (host_files self.old)) (Some (host_files self.new)) name.now []) }
        ensures cause { HasCause (host_write_faults self.old) (host_write_faults self.new) result }
        ensures once { host_write_faults self.new ≤ host_write_faults self.old + 1 }
        ensures same { OnErr result (SameFiles (Some (host_files self.old)) (Some (host_files self.new))) }
        ensures reads { host_read_faults self.new ≡ host_read_faults self.old }
        ensures lent { host_lent self.new ≡ host_lent self.old + (if is_ok result then 1 else 0) }

        // It fails where it is refused, and else only for want of memory.
        ensures refused { Contains (host_refused self.old name.now) 0 → IsErr result }
        ensures why { OnErr result (Contains (host_refused self.old name.now) 0 ⊎ Rose (host_wants self.old) (host_wants self.new)) }
        ensures wants { OnOk result (host_wants self.new ≡ host_wants self.old) }
        ensures output_refused { IfOk result (λ output. store_refused output ≡ host_refused self.old name.now) }
        ensures output_next { IfOk result (λ output. store_next output ≡ 1) }
        ensures output_wants { IfOk result (λ output. store_wants output ≡ 0) }
        ensures refusals { SameRefusals self.old self.new }
    {
        let refused = refused_calls(&self.refusals, name);
        if is_refused(refused, 0) {
            self.write_faults = self.write_faults.saturating_add(1);
            return Err(Failed);
        }
        match make_empty(self.alloc, &mut self.files, name, refused) {
            Ok(output) => {
                self.lent += 1;
                Ok(output)
            }
            Err(_) => {
                self.wants = self.wants.saturating_add(1);
                self.write_faults = self.write_faults.saturating_add(1);
                Err(Failed)
            }
        }
    }

    fn done(&mut self, output: MemoryStore) -> Result<(), Failed>
        requires out { 0 < host_lent self.old }
        requires named { IsNamedThere (Some (host_files self.old)) (Some (store_name output)) }
        ensures bytes { Stands (Some (host_files self.old)) (Some (host_files self.new)) (Some (store_name output)) (Some (store_bytes output)) }
        ensures whole { OnOk result (store_faults output ≡ 0) }
        ensures kept { OnOk result (host_write_faults self.new ≡ host_write_faults self.old) }
        ensures adds { Adds (host_write_faults self.old) (store_faults output) (host_write_faults self.new) }
        ensures once { host_write_faults self.new ≤ host_write_faults self.old + store_faults output + 1 }
        ensures failed { OnErr result (Rose (host_write_faults self.old) (host_write_faults self.new)) }
        ensures reads { host_read_faults self.new ≡ host_read_faults self.old }
        ensures lent { host_lent self.new + 1 ≡ host_lent self.old }

        // It fails exactly where it is refused, which is one fault more, or where the output has counted one.
        ensures refused { IsErr result ↔ (IsTrue (host_closing_refused self.old (store_name output)) ⊎ (1 ≤ store_faults output)) }
        ensures exactly { host_write_faults self.new ≡ min (host_write_faults self.old + store_faults output + (if host_closing_refused self.old (store_name output) then 1 else 0)) (2 ^ 64 - 1) }
        ensures wants { host_wants self.new ≡ min (host_wants self.old + store_wants output) (2 ^ 64 - 1) }
        ensures refusals { SameRefusals self.old self.new }
    {
        self.write_faults = self.write_faults.saturating_add(output.faults);
        self.wants = self.wants.saturating_add(output.wants);
        self.lent -= 1;
        let refused = refuses_closing(&self.refusals, &output.name);
        let bytes = output.bytes;
        keep(&mut self.files, &output.name, bytes);
        if refused {
            self.write_faults = self.write_faults.saturating_add(1);
            return Err(Failed);
        }
        if output.faults > 0 {
            return Err(Failed);
        }
        Ok(())
    }

    fn give_up(&mut self, output: MemoryStore)
        requires out { 0 < host_lent self.old }
        requires named { IsNamedThere (Some (host_files self.old)) (Some (store_name output)) }
        ensures bytes { Stands (Some (host_files self.old)) (Some (host_files self.new)) (Some (store_name output)) (Some (store_bytes output)) }
        ensures adds { Adds (host_write_faults self.old) (store_faults output) (host_write_faults self.new) }
        ensures once { host_write_faults self.new ≤ host_write_faults self.old + store_faults output + 1 }
        ensures reads { host_read_faults self.new ≡ host_read_faults self.old }
        ensures lent { host_lent self.new + 1 ≡ host_lent self.old }

        // A closing that is refused is one fault more.
        ensures exactly { host_write_faults self.new ≡ min (host_write_faults self.old + store_faults output + (if host_closing_refused self.old (store_name output) then 1 else 0)) (2 ^ 64 - 1) }
        ensures wants { host_wants self.new ≡ min (host_wants self.old + store_wants output) (2 ^ 64 - 1) }
        ensures refusals { SameRefusals self.old self.new }
    {
        let _ = self.done(output);
    }
}

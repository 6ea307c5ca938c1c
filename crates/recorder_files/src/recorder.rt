//! A recorder of a session.

ghost use Rattle.std.specs.Prelude.{◌≡◌, ◌+◌, ◌<◌, ◌≤◌, ◌^◌, IfOk, IfSome, IsSome, OnErr, false, length, true};
ghost use Rattle.jack_host.specs.Causes.{HasCause};
ghost use Rattle.jack_host.specs.Told.{BothTold};
ghost use Rattle.disk_recorder.specs.Recordings.{Drains, Fails, MayWrite, Serves};

use disk_recorder::wave_write::WaveOut;
use disk_recorder::{drain, serve};
use jack_host::{Gate, Store, WriteFailed};
use jack_types::{Format, Memory};
use record_ring::{Block, Consumer, Producer, renew};
use std::alloc::Global;
use std::marker::Model;
use std::sync::Wait;

// Writes blocks of a ring into a file, at most so many.
fn write<W: Store>(
    consumer: &mut Consumer,
    spare: &mut Block,
    file: &mut Option<WaveOut<W>>,
    most: u32,
) -> Result<u32, WriteFailed>
    requires room { spare.old.samples.room ≡ consumer.old.samples }
    requires there { IsSome file.old }
    requires may { IfSome file.old (MayWrite consumer.old) }
    ensures ok { IfOk result (λ count. BothTold file.old file.new (λ tape after. Drains most count consumer.old tape consumer.new after)) }
    ensures err { OnErr result (BothTold file.old file.new (λ tape after. Fails consumer.old tape consumer.new after)) }
    ensures cause { BothTold file.old file.new (λ tape after. HasCause tape.faults after.faults result) }
    ensures count { IfOk result (λ count. length consumer.new.got ≡ length consumer.old.got + count) }
    ensures longer { length consumer.old.got ≤ length consumer.new.got }
    ensures lost { OnErr result (length consumer.old.got < length consumer.new.got) }
    ensures room { spare.new.samples.room ≡ consumer.new.samples }
{
    match file {
        Some(file) => drain(consumer, spare, file, most),
        None => Ok(0),
    }
}

// Writes blocks of a ring into a file, up to the ring's end.
fn write_all<R: Wait, W: Store, G: Gate>(
    wait: &R,
    consumer: &mut Consumer,
    spare: &mut Block,
    file: &mut Option<WaveOut<W>>,
    gate: &G,
    place: u8,
) -> Result<u64, WriteFailed>
    requires room { spare.old.samples.room ≡ consumer.old.samples }
    requires there { IsSome file.old }
    requires may { IfSome file.old (MayWrite consumer.old) }
    ensures ok { IfOk result (λ count. BothTold file.old file.new (λ tape after. Serves count consumer.old tape consumer.new after)) }
    ensures err { OnErr result (BothTold file.old file.new (λ tape after. Fails consumer.old tape consumer.new after)) }
    ensures cause { BothTold file.old file.new (λ tape after. HasCause tape.faults after.faults result) }
    ensures count { IfOk result (λ count. length consumer.new.got ≡ length consumer.old.got + count) }
    ensures longer { length consumer.old.got ≤ length consumer.new.got }
    ensures lost { OnErr result (length consumer.old.got < length consumer.new.got) }
    ensures room { spare.new.samples.room ≡ consumer.new.samples }
{
    match file {
        Some(file) => serve(wait, consumer, spare, file, gate, place),
        None => Ok(0),
    }
}

// How many blocks were written behind the first so many: all that were taken, but the last one where its write failed.
fn written_behind(consumer: &Consumer, taken: u64, failed: bool) -> u64
    requires taken { taken ≤ length consumer.now.got }
    requires lost { failed ≡ true → taken < length consumer.now.got }
    ensures whole { failed ≡ false → taken + result ≡ length consumer.now.got }
    ensures lost { failed ≡ true → taken + result + 1 ≡ length consumer.now.got }
    ensures few { taken + result < 2 ^ 64 }
{
    consumer.taken() - taken - u64::from(failed)
}

/// A recorder of a session: the end of its ring that gets, and the file that is filled from it.
///
/// It has no file until a store is attached, and none behind `close`; the store comes out by `take`, whatever happened.
#[derive(Drop)]
pub struct Recorder<W: Store> {
    format: Format,
    consumer: Consumer,
    // A block that goes into the ring for each one that comes out.
    spare: Block,
    file: Option<WaveOut<W>>,
    store: Option<W>,
    blocks: u64,
}

impl<W: Store> Model for Recorder<W> {
    ghost use Rattle.std.specs.Prelude.{◌≡◌, ◌≤◌, length, option_map};
    ghost use Rattle.recorder_files.specs.Recorders.{Recording};

    ghost Value = { Recording };

    ghost view = { λ r. record { format = r.format; getting = r.consumer; tape = r.file; store = option_map (λ w. record { name = W.name w; bytes = W.content w; faults = W.faults w }) r.store; blocks = r.blocks } };

    ghost invariant = { λ r. (r.spare.samples.room ≡ r.consumer.samples) × (r.blocks ≤ length r.consumer.got) };
}

impl<W: Store> Recorder<W> {
    ghost use Rattle.std.specs.Prelude.{◌≡◌, ℕ, ◌+◌, ◌≤◌, [], List, ℤ, IfOk, IfSome, None, OnErr, OnOk, Some, false, is_some, option_map};
    ghost use Rattle.std.specs.Option.{ForSome};
    ghost use Rattle.jack_host.specs.Causes.{HasCause, Rose};
    ghost use Rattle.driver_words.specs.Rings.{IsPair, Renews};
    ghost use Rattle.session_model.specs.WaveFiles.{IsFormat, wave_text};
    ghost use Rattle.driver_words.specs.Tapes.{HasFront, HasSamples, IsCut, Tape};
    ghost use Rattle.disk_recorder.specs.Recordings.{MayWrite, Serves};
    ghost use Rattle.recorder_files.specs.Recorders.{BreaksOff, GivesUp, Stored, Tears, held_in};

    /// A recorder without a file, over this end of a ring whose blocks have so many samples.
    pub fn new(
        alloc: Global,
        consumer: Consumer,
        format: Format,
        samples: u32,
    ) -> Result<Recorder<W>, Memory>
        requires { consumer.samples ≡ samples }
        ensures { IfOk result (λ recorder. recorder ≡ record { format = format; getting = consumer; tape = None; store = None; blocks = 0 }) }
    {
        match Block::new(alloc, samples) {
            Ok(spare) => Ok(Recorder {
                format,
                consumer,
                spare,
                file: None,
                store: None,
                blocks: 0,
            }),
            Err(_) => Err(Memory),
        }
    }

    /// Starts the recorder's file in an empty store: writes the header of an unfinished file. Where that fails, the store is
    /// kept for `take`.
    pub fn attach(&mut self, store: W) -> Result<(), WriteFailed>
        requires none { (self.old.tape ≡ None) × (self.old.store ≡ None) }
        requires empty { ForSome (W.content store) (λ bytes. bytes ≡ []) }
        requires format { IsFormat self.old.format }
        ensures begun { OnOk result ((tape : Tape) × (self.new ≡ record self.old { tape = Some tape }) × HasSamples tape [] × (tape.format ≡ self.old.format) × (tape.written ≡ 0)
            × (tape.name ≡ W.name store) × (is_some tape.bytes ≡ is_some (W.content store)) × (W.faults store ≤ tape.faults)) }
        ensures kept { OnErr result ((back : Stored) × (self.new ≡ record self.old { store = Some back }) × IfSome back.bytes (IsCut self.old.format)
            × (back.name ≡ W.name store) × (is_some back.bytes ≡ is_some (W.content store)) × (W.faults store ≤ back.faults) × Rose (W.faults store) back.faults) }
    {
        match WaveOut::start(store, self.format) {
            Ok(file) => {
                self.file = Some(file);
                Ok(())
            }
            Err((back, failed)) => {
                self.store = Some(back);
                Err(failed)
            }
        }
    }

    /// Writes blocks of the ring into the file, at most so many: the two ends of the ring meet before and behind it, so that
    /// it is known how many there are. Where the file fails it is stopped, and the block of the failing write is lost.
    pub fn give_up(&mut self, producer: &mut Producer, most: u32) -> Result<(), WriteFailed>
        requires pair { IsPair producer.old self.old.getting }
        requires file { (tape : Tape) × (self.old.tape ≡ Some tape) × MayWrite self.old.getting tape }
        ensures given { OnOk result ((tape : Tape) → self.old.tape ≡ Some tape → (after : Tape) × (self.new ≡ record self.old { getting = self.new.getting; tape = Some after; blocks = self.new.blocks })
            × GivesUp most (record { ring = producer.old; getting = self.old.getting; tape = tape; blocks = self.old.blocks }) (record { ring = producer.new; getting = self.new.getting; tape = after; blocks = self.new.blocks })) }
        ensures broken { OnErr result ((tape : Tape) → self.old.tape ≡ Some tape → (after : Tape) × (self.new ≡ record self.old { getting = self.new.getting; tape = Some after; blocks = self.new.blocks })
            × BreaksOff (record { ring = producer.old; getting = self.old.getting; tape = tape; blocks = self.old.blocks }) (record { ring = producer.new; getting = self.new.getting; tape = after; blocks = self.new.blocks })) }
        ensures cause { (tape after : Tape) → self.old.tape ≡ Some tape → self.new.tape ≡ Some after → HasCause tape.faults after.faults result }
        ensures tells { (tape after : Tape) → self.old.tape ≡ Some tape → self.new.tape ≡ Some after → is_some after.bytes ≡ is_some tape.bytes }
    {
        renew(producer, &mut self.consumer);
        let taken = self.consumer.taken();
        let given = write(&mut self.consumer, &mut self.spare, &mut self.file, most);
        self.blocks += written_behind(&self.consumer, taken, given.is_err());
        renew(producer, &mut self.consumer);
        given?;
        Ok(())
    }

    /// Writes blocks of the ring into the file until the ring has ended, while another thread puts them. Where the file fails
    /// it is stopped, and the block of the failing write is lost.
    ///
    /// It calls the gate before each get, with the recorder's place. It may wait for ever.
    pub fn serve<R: Wait, G: Gate>(
        &mut self,
        wait: &R,
        gate: &G,
        place: u8,
    ) -> Result<(), WriteFailed>
        requires file { (tape : Tape) × (self.old.tape ≡ Some tape) × MayWrite self.old.getting tape }
        ensures served { OnOk result ((tape : Tape) → self.old.tape ≡ Some tape → (after : Tape) × (count : ℕ) × (self.new ≡ record self.old { getting = self.new.getting; tape = Some after; blocks = self.old.blocks + count })
            × Serves count self.old.getting tape self.new.getting after) }
        ensures broken { OnErr result ((tape : Tape) → self.old.tape ≡ Some tape → (after : Tape) × (self.new ≡ record self.old { getting = self.new.getting; tape = Some after; blocks = self.new.blocks }) × Tears self.old tape self.new after) }
        ensures cause { (tape after : Tape) → self.old.tape ≡ Some tape → self.new.tape ≡ Some after → HasCause tape.faults after.faults result }
        ensures tells { (tape after : Tape) → self.old.tape ≡ Some tape → self.new.tape ≡ Some after → is_some after.bytes ≡ is_some tape.bytes }
    {
        let taken = self.consumer.taken();
        let served = write_all(
            wait,
            &mut self.consumer,
            &mut self.spare,
            &mut self.file,
            gate,
            place,
        );
        self.blocks += written_behind(&self.consumer, taken, served.is_err());
        served?;
        Ok(())
    }

    /// Takes the ring's end mark away, and tells each end of the ring how far the other has come. It may be called behind a
    /// failure too.
    pub fn renew(&mut self, producer: &mut Producer)
        requires { IsPair producer.old self.old.getting }
        ensures renews { Renews producer.old self.old.getting producer.new self.new.getting }
        ensures same { self.new ≡ record self.old { getting = self.new.getting } }
    {
        renew(producer, &mut self.consumer);
    }

    /// Finishes the file: writes its sizes. The store comes back in each case, and is kept for `take`.
    pub fn close(&mut self) -> Result<(), WriteFailed>
        requires file { (tape : Tape) × (self.old.tape ≡ Some tape) × (tape.stopped ≡ false) }
        ensures closed { (tape : Tape) → self.old.tape ≡ Some tape → (back : Stored) × (self.new ≡ record self.old { tape = None; store = Some back }) × (back.name ≡ tape.name) × (is_some back.bytes ≡ is_some tape.bytes)
            × HasCause tape.faults back.faults result
            × OnOk result ((samples : List ℤ) → HasSamples tape samples → IfSome back.bytes (λ text. text ≡ wave_text tape.format samples))
            × OnErr result ((samples : List ℤ) → HasSamples tape samples → HasFront tape.format samples back.bytes) }
    {
        let Some(file) = self.file.take() else {
            return Ok(());
        };
        let (store, finished) = file.finish();
        self.store = Some(store);
        finished
    }

    /// Takes the store out, also that of a file in the making, None exactly where the recorder has none.
    pub fn take(&mut self) -> Option<W>
        ensures store { option_map (λ w. record { name = W.name w; bytes = W.content w; faults = W.faults w }) result ≡ held_in self.old }
        ensures after { self.new ≡ record self.old { tape = None; store = None } }
    {
        if let Some(file) = self.file.take() {
            self.store = None;
            return Some(file.stop());
        }
        self.store.take()
    }

    /// Whether a write to its file failed. Behind that no block is written.
    pub fn failed(&self) -> bool
        ensures { IfSome self.now.tape (λ tape. result ≡ tape.stopped) }
    {
        match &self.file {
            Some(file) => file.stopped(),
            None => false,
        }
    }

    /// How many blocks were written into the file. The block of a failed write is not counted.
    pub fn blocks(&self) -> u64
        ensures { result ≡ self.now.blocks }
    {
        self.blocks
    }
}

//! What a driver lends and hands out, and what it is told between two cycles.

use crate::driver::Driver;
use client_kinds::Guest;
use cycle_plan::Plan;
use graph_word::Reader;
use jack_host::{Source, Store, WriteFailed};
use jack_types::{Logged, Moment, Overrun, Underrun};
use record_ring::{Consumer, Producer};
use wave_pcm::Wave;
use wave_write::WaveOut;

impl<S: Source, W: Store, G: Guest> Driver<S, W, G> {
    ghost use Rattle.std.specs.Prelude.{◌≡◌, ◌<◌, ◌≤◌, [], All, false, IfErr, IfSome, None, OnErr, OnOk, Some, is_some, length, slice_set};
    ghost use Rattle.std.specs.Borrow.{sem, Lends};
    ghost use Rattle.graph_word.specs.contracts.reader.Reader.{the_row as the_reader};
    ghost use Rattle.cycle_plan.specs.contracts.plan.Plan.{the_row as the_plan};
    ghost use Rattle.cycle_plan.specs.Plans.{Planned};
    ghost use Rattle.record_ring.specs.contracts.consumer.Consumer.{the_row as the_consumer};
    ghost use Rattle.record_ring.specs.contracts.producer.Producer.{the_row as the_producer};
    ghost use Rattle.recorder_rings.specs.Sending.{consumer_at, ring_at};
    ghost use Rattle.cycle_driver.specs.contracts.driver.Driver.{the_row};
    ghost use Rattle.std.specs.Option.{ForSome};
    ghost use Rattle.jack_host.specs.Causes.{Rose};
    ghost use Rattle.driver_words.specs.Tapes.{HasSamples, IsCut, Tape};
    ghost use Rattle.driver_words.specs.Feeding.{disk_at, played_at, producer_at};
    ghost use Rattle.midi_player.specs.Standings.{IsLawful};
    ghost use Rattle.driver_laws.specs.Drivers.{log_in, peak_in};
    ghost use Rattle.driver_laws.specs.Keeping.{AreOfCalls};
    ghost use Rattle.cycle_works.specs.Gears.{driver_of};
    ghost use Rattle.cycle_driver.specs.Openings.{playback_format};

    /// Starts the playback in an empty store: writes the header of an unfinished file. Where that fails, the store comes back.
    pub fn attach(&mut self, store: W) -> Result<(), (W, WriteFailed)>
        requires none { self.old.playback ≡ None }
        requires empty { ForSome (W.content store) (λ bytes. bytes ≡ []) }
        ensures attached { OnOk result ((tape : Tape) × (self.new.playback ≡ Some tape) × HasSamples tape [] × (tape.format ≡ playback_format self.old.script) × (tape.written ≡ 0)) }
        ensures store { OnOk result ((tape : Tape) → self.new.playback ≡ Some tape → (tape.name ≡ W.name store) × (is_some tape.bytes ≡ is_some (W.content store)) × (W.faults store ≤ tape.faults)) }
        ensures none { OnErr result (self.new.playback ≡ None) }
        ensures front { IfErr result (λ refused. IfSome (W.content refused.0) (IsCut (playback_format self.old.script))) }
        ensures back { IfErr result (λ refused. (W.name refused.0 ≡ W.name store) × (is_some (W.content refused.0) ≡ is_some (W.content store))) }
        ensures cause { IfErr result (λ refused. (W.faults store ≤ W.faults refused.0) × Rose (W.faults store) (W.faults refused.0)) }
        ensures same { self.new ≡ record self.old { playback = self.new.playback } }
    {
        match WaveOut::start(store, self.format) {
            Ok(file) => {
                self.playback = Some(file);
                Ok(())
            }
            Err(refused) => Err(refused),
        }
    }

    /// Sets the period of the next cycle, in frames.
    pub fn period(&mut self, period: u32)
        ensures { self.new ≡ record self.old { set = period } }
    {
        self.works.period(period);
    }

    /// Of each cycle run the number that it took.
    pub fn numbers(&self) -> &[u32]
        ensures { result.now ≡ self.now.numbers }
    {
        self.works.numbers()
    }

    /// What the transport showed in each cycle run: as many as there are numbers, where nothing failed.
    pub fn moments(&self) -> &[Moment]
        ensures value { result.now ≡ self.now.moments }
        ensures count { self.now.failed ≡ false → length self.now.moments ≡ length self.now.numbers }
    {
        self.works.moments()
    }

    /// The overruns of all recorders, in the order in which they came.
    pub fn overruns(&self) -> &[Overrun]
        ensures { result.now ≡ self.now.rings.overruns }
    {
        self.works.overruns()
    }

    /// The peak of the meter that the change of this number opened, over the cycles run; 0 for every other number.
    pub fn peak(&self, birth: u32) -> u32
        ensures { result ≡ peak_in (driver_of G.sound self.now) birth }
    {
        self.works.peak(birth)
    }

    /// What the client that the change of this number opened has logged of MIDI over the cycles run, where the plan that was
    /// played last is of calls of the script; nothing for every other number.
    pub fn log(&self, birth: u32) -> &[Logged]
        ensures value { AreOfCalls self.now.script self.now.stage.plan.changes → result.now ≡ log_in (driver_of G.sound self.now) birth }
        ensures few { length result.now ≤ 4096 }
        ensures lawful { All IsLawful result.now }
    {
        self.works.log(birth)
    }

    /// The underruns of all disks, in the order in which they came.
    pub fn underruns(&self) -> &[Underrun]
        ensures { result.now ≡ self.now.disks.underruns }
    {
        self.works.underruns()
    }

    /// How many blocks the cycles got from a disk's ring.
    pub fn disk_played(&self, disk: u8) -> u64
        requires { disk < length self.now.disks.disks }
        ensures { result ≡ played_at self.now.disks disk }
    {
        self.works.disk_played(disk)
    }

    /// The end of the publication that reads plans, to meet the other end.
    pub fn reader(&mut self) -> &mut Reader<Plan>
        ensures* writes_back { sem 𝓛 (Lends (the_row S.row W.row G.row S.Source W.Store G.Guest) (the_reader the_plan (record { base = λ (plan : Planned). plan.base; content = λ (plan : Planned). plan.changes })) self.entry result (λ reader. record self.old { reading = reader.0 })) }
        ensures value { result.now.0 ≡ self.old.reading }
    {
        self.works.reader()
    }

    /// Hands the end of a recorder's ring out that gets, None exactly where it is out.
    pub fn consumer(&mut self, recorder: u8) -> Option<Consumer>
        requires { recorder < length self.old.rings.rings }
        ensures end { result ≡ consumer_at self.old.rings recorder }
        ensures after { self.new ≡ record self.old { rings = record self.old.rings { out = slice_set self.old.rings.out recorder None } } }
    {
        self.works.consumer(recorder)
    }

    /// The end of a recorder's ring that puts, to end it or to meet the other end.
    pub fn producer(&mut self, recorder: u8) -> &mut Producer
        requires { recorder < length self.old.rings.rings }
        ensures* writes_back { sem 𝓛 (Lends (the_row S.row W.row G.row S.Source W.Store G.Guest) the_producer self.entry result (λ ring. record self.old { rings = record self.old.rings { rings = slice_set self.old.rings.rings recorder ring } })) }
        ensures value { result.now ≡ ring_at self.old.rings recorder }
    {
        self.works.producer(recorder)
    }

    /// The end of a disk's ring that gets, to meet the other end.
    pub fn disk_consumer(&mut self, disk: u8) -> &mut Consumer
        requires { disk < length self.old.disks.disks }
        ensures* writes_back { sem 𝓛 (Lends (the_row S.row W.row G.row S.Source W.Store G.Guest) the_consumer self.entry result (λ ring. record self.old { disks = record self.old.disks { disks = slice_set self.old.disks.disks disk ring } })) }
        ensures value { result.now ≡ disk_at self.old.disks disk }
    {
        self.works.disk_consumer(disk)
    }

    /// Hands the end of a disk's ring out that puts, None exactly where it is out.
    pub fn disk_producer(&mut self, disk: u8) -> Option<Producer>
        requires { disk < length self.old.disks.disks }
        ensures end { result ≡ producer_at self.old.disks disk }
        ensures after { self.new ≡ record self.old { disks = record self.old.disks { out = slice_set self.old.disks.out disk None } } }
    {
        self.works.disk_producer(disk)
    }

    /// Takes the playback out, None exactly where none is attached. After it no cycle may be run.
    pub fn close(&mut self) -> Option<WaveOut<W>>
        ensures file { result ≡ self.old.playback }
        ensures after { self.new ≡ record self.old { playback = None } }
    {
        self.playback.take()
    }

    /// The capture, as far as it was read. Where no cycle failed, none of its reads did.
    pub fn into_capture(self) -> Wave<S>
        ensures reading { result ≡ self.capture.reading }
        ensures sound { self.failed ≡ false → result.failed ≡ false }
    {
        self.works.into_capture()
    }
}

//! Where a body line stands: what the lines before it mean for it.

ghost use Rattle.std.specs.Prelude.{◌≡◌, ◌*◌, ◌≤◌, Some};
ghost use Rattle.jack_types.specs.declared.scripts.Cause.TheVariants.{TooMany};
ghost use Rattle.grammar_laws.specs.session_model.specs.Grammar.{is_open, most_channels};
ghost use Rattle.grammar_laws.specs.session_model.specs.Reading.{passed_limit};
ghost use Rattle.script_body.specs.Standings.{begun, call_limit, called, changed, closed, IsSmall, IsWithin, limits_at, moved, opened, period_limit, segment_limit, start};

use jack_types::{Body, Cause, Command, Header, Many};

const MOST_CALLS: u32 = 4096;

const MOST_OPENS: u32 = 256;

const MOST_SEGMENTS: u32 = 256;

const MOST_PERIODS: u32 = 256;

const MOST_CYCLES: u64 = 1000000;

const MOST_BYTES: u64 = 2000000000;

/// What the lines so far mean for the next one.
#[derive(Clone, Copy, Drop)]
pub struct Standing {
    pub calls: u32,
    pub opens: u32,
    pub segments: u32,
    pub periods: u32,
    /// All cycles of the segments.
    pub cycles: u64,
    /// The sample bytes of those cycles, by the greatest channel number.
    pub bytes: u64,
    /// Frames a cycle.
    pub period: u32,
    /// The cycles of the segment that is open.
    pub segment: Option<u32>,
    /// The number that each lane's last call in that segment asked for; lane 1 is the first.
    pub begun: [u32; 4],
}

/// The standing of the first line.
pub fn start(header: &Header) -> Standing
    ensures { result ≡ start header.now }
{
    let begun = [0; 4];
    Standing {
        calls: 0,
        opens: 0,
        segments: 0,
        periods: 0,
        cycles: 0,
        bytes: 0,
        period: header.period,
        segment: None,
        begun,
    }
}

/// The greatest channel number in the script.
fn most_channels(header: &Header) -> u16
    ensures { result ≡ most_channels header.now }
{
    let mut most = header.capture.max(header.playback);
    for format in header.recorders.as_slice() {
        most = most.max(format.channels);
    }
    for channels in header.disks.as_slice() {
        most = most.max(*channels);
    }
    most
}

/// The sample bytes of so many cycles.
fn sample_bytes(header: &Header, cycles: u32, period: u32) -> u64
    requires cycles { cycles ≤ 1000000 }
    requires period { period ≤ 4096 }
    ensures value { result ≡ cycles * period * 4 * most_channels header.now }
    ensures small { result ≤ 2000000000000000 }
{
    let frames = u64::from(cycles) * u64::from(period);
    frames * 4 * u64::from(most_channels(header))
}

fn too_many(what: Many, limit: u32) -> Option<Cause>
    ensures { result ≡ Some (TooMany what limit) }
{
    Some(Cause::TooMany { what, limit })
}

fn is_open(command: &Command) -> bool
    ensures { result ≡ is_open command.now }
{
    match command {
        Command::Open { .. } => true,
        _ => false,
    }
}

/// The limit that one call more passes.
fn call_limit(standing: &Standing, command: &Command) -> Option<Cause>
    ensures { result ≡ call_limit standing.now command.now }
{
    if standing.calls >= MOST_CALLS {
        return too_many(Many::Calls, MOST_CALLS);
    }
    if is_open(command) && standing.opens >= MOST_OPENS {
        return too_many(Many::Opens, MOST_OPENS);
    }
    None
}

/// The limit that one segment more passes.
fn segment_limit(standing: &Standing, header: &Header, cycles: u32) -> Option<Cause>
    requires within { IsWithin standing.now }
    requires small { cycles ≤ 1000000 }
    ensures { result ≡ segment_limit header.now standing.now cycles }
{
    if standing.segments >= MOST_SEGMENTS {
        return too_many(Many::Segments, MOST_SEGMENTS);
    }
    if standing.cycles + u64::from(cycles) > MOST_CYCLES {
        return too_many(Many::Cycles, 1000000);
    }
    if standing.bytes + sample_bytes(header, cycles, standing.period) > MOST_BYTES {
        return Some(Cause::TooLong);
    }
    None
}

/// The limit that one `period` line more passes.
fn period_limit(standing: &Standing) -> Option<Cause>
    ensures { result ≡ period_limit standing.now }
{
    if standing.periods >= MOST_PERIODS {
        return too_many(Many::Periods, MOST_PERIODS);
    }
    None
}

/// The first limit that a line passes.
pub fn passed(standing: &Standing, header: &Header, body: &Body) -> Option<Cause>
    requires within { IsWithin standing.now }
    requires small { IsSmall body.now }
    ensures { result ≡ passed_limit (limits_at header.now standing.now body.now) }
{
    match body {
        Body::Do(command) => call_limit(standing, command),
        Body::Run(cycles) => segment_limit(standing, header, *cycles),
        Body::Freewheel(cycles) => segment_limit(standing, header, *cycles),
        Body::Lane(_, _, command) => call_limit(standing, command),
        Body::Period(_) => period_limit(standing),
    }
}

/// The standing behind one call more.
fn called(standing: &Standing, command: &Command) -> Standing
    requires { IsWithin standing.now }
    ensures { result ≡ called standing.now command.now }
{
    let opened = u32::from(is_open(command));
    let begun = standing.begun;
    Standing {
        calls: standing.calls + 1,
        opens: standing.opens + opened,
        segments: standing.segments,
        periods: standing.periods,
        cycles: standing.cycles,
        bytes: standing.bytes,
        period: standing.period,
        segment: standing.segment,
        begun,
    }
}

/// The standing where no segment is open.
fn closed(standing: &Standing) -> Standing
    ensures { result ≡ closed standing.now }
{
    let begun = [0; 4];
    Standing {
        calls: standing.calls,
        opens: standing.opens,
        segments: standing.segments,
        periods: standing.periods,
        cycles: standing.cycles,
        bytes: standing.bytes,
        period: standing.period,
        segment: None,
        begun,
    }
}

/// The standing behind one segment more, which is open.
fn opened(standing: &Standing, header: &Header, cycles: u32) -> Standing
    requires within { IsWithin standing.now }
    requires small { cycles ≤ 1000000 }
    ensures { result ≡ opened header.now standing.now cycles }
{
    let begun = [0; 4];
    let bytes = sample_bytes(header, cycles, standing.period);
    Standing {
        calls: standing.calls,
        opens: standing.opens,
        segments: standing.segments + 1,
        periods: standing.periods,
        cycles: standing.cycles + u64::from(cycles),
        bytes: standing.bytes + bytes,
        period: standing.period,
        segment: Some(cycles),
        begun,
    }
}

/// The standing behind a call of a lane.
fn begun(standing: &Standing, lane: u8, asked: u32) -> Standing
    requires least { 1 ≤ lane }
    requires most { lane ≤ 4 }
    ensures { result ≡ begun standing.now lane asked }
{
    let mut begun = standing.begun;
    begun[lane as usize - 1] = asked;
    Standing {
        calls: standing.calls,
        opens: standing.opens,
        segments: standing.segments,
        periods: standing.periods,
        cycles: standing.cycles,
        bytes: standing.bytes,
        period: standing.period,
        segment: standing.segment,
        begun,
    }
}

/// The standing behind a change of the period.
fn changed(standing: &Standing, period: u32) -> Standing
    requires { IsWithin standing.now }
    ensures { result ≡ changed standing.now period }
{
    let begun = standing.begun;
    Standing {
        calls: standing.calls,
        opens: standing.opens,
        segments: standing.segments,
        periods: standing.periods + 1,
        cycles: standing.cycles,
        bytes: standing.bytes,
        period,
        segment: standing.segment,
        begun,
    }
}

/// Where the next line stands.
pub fn moved(standing: &Standing, header: &Header, body: &Body) -> Standing
    requires within { IsWithin standing.now }
    requires small { IsSmall body.now }
    ensures { result ≡ moved header.now standing.now body.now }
{
    match body {
        Body::Do(command) => closed(&called(standing, command)),
        Body::Run(cycles) => opened(standing, header, *cycles),
        Body::Freewheel(cycles) => opened(standing, header, *cycles),
        Body::Lane(lane, asked, command) => begun(&called(standing, command), *lane, *asked),
        Body::Period(period) => closed(&changed(standing, *period)),
    }
}

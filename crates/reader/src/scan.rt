// Finding the first frame of a slice by the leftmost rule.
ghost use Rattle.std.specs.Prelude.{◌≡◌, Bool, true, false, ◌+◌, ◌-◌, ◌*◌, ◌≤◌, ◌<◌, max, min, length, get_or, take, drop};
ghost use Rattle.frame.specs.Framing.{judge, judged_at};
ghost use Rattle.reader.specs.Reader.{judged_to};
ghost use Rattle.reader.specs.Scan.{start_of, passed_by, judging, scan_from, scan_over, judged_over, scanned, other, step_to, stopped_at, stop_buffer};
ghost use Rattle.reader.specs.Scan.{Skips, Scannable, MayStart, FailsWith, PassesOver, LeavesOut};

use frame::{Format, Judged, extract, judge, unpack};

// Where a scan stopped.
#[derive(Clone, Copy)]
pub(crate) enum ScanEnd {
    // At a frame of `used` bytes with a payload of `len` bytes.
    Frame { used: usize, len: usize },
    // At bytes that are undecided.
    Undecided,
    // Behind the last place that was to be judged: every one failed.
    Passed,
}

// A scan's result: the place at which it stopped, how far bytes are taken, from the slice's first byte, by the places that failed and the frame, and how many
// were judged, each counted once at every place where it was.
#[derive(Clone, Copy)]
pub(crate) struct ScanResult {
    pub(crate) place: usize,
    pub(crate) reach: usize,
    pub(crate) judged: usize,
    pub(crate) end: ScanEnd,
}

// The places of a slice that are to be judged: those from `from` up to `stop`, which is behind them. The bytes up to `reach` were taken before. Where `ended`,
// the bytes end the segment, and an undecided place fails too.
// Kept: `ended` is a flag that one line of `scan` asks. As a const parameter of `scan` it was a number in the proofs, and answers that speak of it stayed open.
#[derive(Clone, Copy)]
pub(crate) struct Places {
    pub(crate) from: usize,
    pub(crate) stop: usize,
    pub(crate) reach: usize,
    pub(crate) ended: bool,
}

// Places that were passed, one or several at once: the next one, how far bytes were judged for them, and how many were.
#[derive(Clone, Copy)]
struct Step {
    place: usize,
    reach: usize,
    judged: usize,
}

impl Step {
    // Two steps as one.
    fn then(self, next: Step) -> Step
        requires { self.judged + next.judged ≤ 4294967296 }
        ensures { result ≡ step_to next.place (max self.reach next.reach) (self.judged + next.judged) }
    {
        Step {
            place: next.place,
            reach: self.reach.max(next.reach),
            judged: self.judged + next.judged,
        }
    }

    // A scan's result behind a step, where `judged` bytes more were judged.
    fn stopped(self, judged: usize, end: ScanEnd) -> ScanResult
        requires { self.judged + judged ≤ 4294967296 }
        ensures { result ≡ stopped_at self.place self.reach (self.judged + judged) end }
    {
        ScanResult {
            place: self.place,
            reach: self.reach,
            judged: self.judged + judged,
            end,
        }
    }
}

// The first byte of every frame.
fn start_of(format: Format) -> u8
    ensures { result ≡ start_of format }
{
    match format {
        Format::Binary(_) => 0xA5,
        Format::Ascii(_) => 0x3A,
    }
}

// How many places a failed start passes over, where `judged` bytes were judged.
fn passed_by(format: Format, judged: usize) -> usize
    requires { 1 ≤ judged }
    ensures { result ≡ passed_by format judged }
{
    match format {
        Format::Binary(_) => 1,
        Format::Ascii(_) => judged - 1,
    }
}

// The first place from `from` on that has b, or `stop` where none before it has. Whole blocks of bytes without one are passed first.
// Kept: the rest is searched by index, since with `run_len` of the rest a capture of overlapping starts takes 4 % more instructions.
fn skip_to(s: &[u8], b: u8, from: usize, stop: usize) -> usize
    requires from_le_stop { from ≤ stop }
    requires stop_in_bounds { stop ≤ length s.now }
    ensures { Skips (other b) s.now from stop result }
{
    let blocks = octets::block_run_len(&s[from..stop], |c| c != b);
    for place in from + blocks..stop {
        if s[place] == b {
            return place;
        }
    }
    stop
}

// Whether a frame may start at a place: the byte there starts one, and no other start follows it, where a frame fails in either framing.
fn may_start(s: &[u8], start: u8, place: usize) -> bool
    requires { place < length s.now }
    ensures { MayStart s.now start place result }
{
    s[place] == start && (s.len() <= place + 1 || s[place + 1] != start)
}

// Passes at once over places at which no frame starts, from one on: over bytes that start none up to the next that does, or over starts that another follows
// up to the last.
fn pass_over(format: Format, s: &[u8], start: u8, from: usize, stop: usize) -> Step
    requires start_value { start ≡ start_of format }
    requires from_lt_stop { from < stop }
    requires stop_in_bounds { stop ≤ length s.now }
    requires s_len_bound { length s.now ≤ 65536 }
    requires may_start { MayStart s.now start from false }
    ensures in_bounds { result.reach ≤ length s.now }
    ensures few { result.judged ≤ 2 * length s.now }
    ensures passes { (ended : Bool) → PassesOver ended format s.now from stop result }
{
    if s[from] != start {
        let place = skip_to(s, start, from + 1, stop);
        let judged = place - from;
        return Step {
            place,
            reach: place,
            judged,
        };
    }
    let more = octets::run_len(&s[from + 1..stop], |b| b == start);
    let place = from + more.max(1);
    Step {
        place,
        reach: place + 1,
        judged: 2 * (place - from),
    }
}

// Passes over a start that failed with `judged` bytes judged, and over bytes behind it that start no frame.
fn pass_failed(format: Format, s: &[u8], place: usize, stop: usize, judged: usize) -> Step
    requires place_lt_stop { place < stop }
    requires stop_in_bounds { stop ≤ length s.now }
    requires s_len_bound { length s.now ≤ 65536 }
    requires started { get_or s.now place 0 ≡ start_of format }
    requires failed { FailsWith (judge format (drop place s.now)) judged }
    ensures in_bounds { result.reach ≤ length s.now }
    ensures passes { (ended : Bool) → PassesOver ended format s.now place stop result }
{
    let next = (place + passed_by(format, judged)).min(stop);
    Step {
        place: next,
        reach: place + judged,
        judged: failed_bytes(judged, next - place),
    }
}

// The bytes judged at `places` places, of which the first is a start that failed with `judged` bytes judged, and the others start no frame: one at each.
fn failed_bytes(judged: usize, places: usize) -> usize
    requires judged_bound { judged ≤ 65536 }
    requires le_places { 1 ≤ places }
    requires places_bound { places ≤ 65536 }
    ensures { result ≡ judged + (places - 1) }
{
    judged + (places - 1)
}

// A scan's result with `more` bytes judged before it, less `known`.
fn counted(found: ScanResult, more: usize, known: usize) -> ScanResult
    requires more_bound { found.judged + more ≤ 4294967296 }
    requires known_bound { known ≤ found.judged + more }
    ensures { result ≡ stopped_at found.place found.reach (found.judged + more - known) found.end }
{
    ScanResult {
        judged: found.judged + more - known,
        ..found
    }
}

// A scan's result at the first place.
fn at_front(reach: usize, judged: usize, end: ScanEnd) -> ScanResult
    ensures { result ≡ stopped_at 0 reach judged end }
{
    ScanResult {
        place: 0,
        reach,
        judged,
        end,
    }
}

// Judges places of s in order, up to the first that does not fail; bytes that start no frame are passed at once.
fn scan(format: Format, s: &[u8], places: Places) -> ScanResult
    requires { Scannable places s.now }
    ensures result_value { scanned format s.now result ≡ scan_over format places s.now }
    ensures judged_value { result.judged ≡ judged_over format places s.now }
{
    let start = start_of(format);
    let stop = places.stop;
    let mut at = Step {
        place: places.from,
        reach: places.reach,
        judged: 0,
    };
    // Kept: a `while`, since each turn goes on by another number of places.
    while at.place < stop {
        let place = at.place;
        if !may_start(s, start, place) {
            at = at.then(pass_over(format, s, start, place, stop));
            continue;
        }
        match judge(format, &s[place..]) {
            Judged::Undecided => {
                let judged = s.len() - place;
                if !places.ended {
                    return at.stopped(judged, ScanEnd::Undecided);
                }
                at = at.then(Step {
                    place: place + 1,
                    reach: place,
                    judged,
                });
            }
            Judged::Failed { judged, .. } => {
                at = at.then(pass_failed(format, s, place, stop, judged));
            }
            Judged::Frame { used, len } => {
                let frame = Step {
                    place,
                    reach: place + used,
                    judged: used,
                };
                return at.then(frame).stopped(0, ScanEnd::Frame { used, len });
            }
        }
    }
    at.stopped(0, ScanEnd::Passed)
}

// The same, and puts the payload of a frame into the front of buf.
// Kept: buf is a slice of 256 bytes or more, here and wherever it goes; as `&mut [u8; 256]` each public call would have to say besides that the rest of it stays.
pub(crate) fn find(format: Format, s: &[u8], places: Places, buf: &mut [u8]) -> ScanResult
    requires scannable { Scannable places s.now }
    requires in_bounds { 256 ≤ length buf.old }
    ensures result_value { scanned format s.now result ≡ scan_over format places s.now }
    ensures judged_value { result.judged ≡ judged_over format places s.now }
    ensures buf_after { buf.new ≡ stop_buffer (scanned format s.now result).stop buf.old }
{
    let found = scan(format, s, places);
    if let ScanEnd::Frame { len, .. } = found.end {
        unpack(format, &s[found.place..], len, buf);
    }
    found
}

// How many bytes a call leaves out of its count, where `known` bytes were judged at the first place of s before: no more than are judged there. A scan of s has
// found `found`; where that place failed, those bytes are judged once more, by `find`, so that the scan itself keeps one caller and is inlined there. No frame
// is found in them, and buf stays.
fn left_out(format: Format, s: &[u8], found: ScanResult, known: usize, buf: &mut [u8]) -> usize
    requires { LeavesOut format s.now found known buf.old }
    ensures value { result ≡ min known (judged_at format s.now) }
    ensures buf_unchanged { buf.new ≡ buf.old }
{
    if found.place == 0 {
        return known.min(found.judged);
    }
    if known <= 1 {
        return known;
    }
    let first = Places {
        from: 0,
        stop: 1,
        reach: 0,
        ended: false,
    };
    find(format, &s[..known], first, buf).judged
}

// As `find`, from the first place on, where `known` bytes were judged at that before, and are not counted again.
pub(crate) fn find_more(
    format: Format,
    s: &[u8],
    places: Places,
    known: usize,
    buf: &mut [u8],
) -> ScanResult
    requires scannable { Scannable places s.now }
    requires from_first { places.from ≡ 0 }
    requires known_bound { known ≤ places.stop }
    requires in_bounds { 256 ≤ length buf.old }
    ensures result_value { scanned format s.now result ≡ scan_over format places s.now }
    ensures judged_value { result.judged ≡ judged_over format places s.now - min known (judged_at format s.now) }
    ensures buf_after { buf.new ≡ stop_buffer (scanned format s.now result).stop buf.old }
{
    let found = find(format, s, places, buf);
    let known = left_out(format, s, found, known, buf);
    counted(found, 0, known)
}

// As `find_more`, over all places of a segment that goes on. On a clean line each frame stands at the front, so that place is judged before the loop, whose
// set-up then costs nothing, and judged and handed out at once.
// It is one function: where another judges the front, a binary line takes 1 % more instructions.
pub(crate) fn find_first(
    format: Format,
    s: &[u8],
    reach: usize,
    known: usize,
    buf: &mut [u8],
) -> ScanResult
    requires reach_in_bounds { reach ≤ length s.now }
    requires s_len_bound { length s.now ≤ 65536 }
    requires in_bounds { 256 ≤ length buf.old }
    ensures result_value { scanned format s.now result ≡ scan_from (judging false format) (length s.now) 0 reach s.now }
    ensures judged_value { result.judged ≡ judged_to format (judge format) s.now - min known (judged_at format s.now) }
    ensures buf_after { buf.new ≡ stop_buffer (scanned format s.now result).stop buf.old }
{
    let size = s.len();
    if size == 0 {
        return at_front(reach, 0, ScanEnd::Passed);
    }
    if s[0] != start_of(format) {
        let all = Places {
            from: 0,
            stop: size,
            reach,
            ended: false,
        };
        let found = find(format, s, all, buf);
        return counted(found, 0, known.min(1));
    }
    match extract(format, s, buf) {
        Judged::Undecided => at_front(reach, size - known.min(size), ScanEnd::Undecided),
        Judged::Failed { judged, .. } => {
            let first = pass_failed(format, s, 0, size, judged);
            let behind = Places {
                from: first.place,
                stop: size,
                reach: reach.max(first.reach),
                ended: false,
            };
            let found = find(format, s, behind, buf);
            counted(found, first.judged, known.min(judged))
        }
        Judged::Frame { used, len } => {
            let frame = ScanEnd::Frame { used, len };
            at_front(reach.max(used), used - known.min(used), frame)
        }
    }
}

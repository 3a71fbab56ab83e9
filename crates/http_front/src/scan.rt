ghost use Rattle.std.specs.Prelude.{◌≡◌, ◌≤◌, ◌<◌, ◌+◌, length, []};
ghost use Rattle.std.specs.List.{count_by};
ghost use Rattle.http_front.specs.declared.byte_place.BytePlace.TheVariants.{Before, Between, Inside};
ghost use Rattle.http_front.specs.Sections.{section_from, line_end_length, begins_with_line_feed, is_return_alone, blank_length, is_idle, header_lines, is_line_feed_byte};
ghost use Rattle.http_front.specs.Scans.{ScanStepSays, IsScanned};

use crate::advancing::MOST_HEAD_BYTES;
use crate::byte_place::BytePlace;
use crate::line_section::LineSection;

/// How far a section was read: the next byte, and where that stands.
#[derive(Clone, Copy, Debug)]
pub(crate) struct Scan {
    pub(crate) at: usize,
    pub(crate) place: BytePlace,
}

/// A section, and how far it was read.
#[derive(Clone, Copy, Debug)]
pub(crate) struct Scanned {
    pub(crate) scan: Scan,
    pub(crate) section: LineSection,
}

/// What one byte of a section says.
#[derive(Clone, Copy, Debug)]
enum ScanStep {
    /// It is of a line, and the next byte stands there.
    Goes(BytePlace),
    /// A byte more is needed.
    Stops,
    /// The empty line begins, which has so many bytes.
    Ends(usize),
}

/// Reads the section of which these are the bytes from such a place on.
pub(crate) fn scan_section(bytes: &[u8], first: BytePlace) -> Scanned
    ensures reached { IsScanned first bytes.now result.scan }
    ensures section { section_from first bytes.now ≡ result.section }
    ensures within { result.section.lines + result.section.closing ≤ length bytes.now + 1 }
{
    let mut at = 0;
    let mut place = first;
    'bytes: while at < bytes.len() {
        match scan_step(&bytes[at..], place) {
            ScanStep::Goes(next) => {
                place = next;
                at += 1;
            }
            ScanStep::Stops => return scan_to(at, place, at, 0),
            ScanStep::Ends(closing) => return scan_to(at, place, at, closing),
        }
    }
    scan_to(at, place, at + open_bytes(place), 0)
}

fn scan_to(at: usize, place: BytePlace, lines: usize, closing: usize) -> Scanned
    ensures scan { result.scan ≡ record { at = at; place = place } }
    ensures section { result.section ≡ record { lines = lines; closing = closing } }
{
    Scanned {
        scan: Scan { at, place },
        section: LineSection { lines, closing },
    }
}

/// The byte that a line which isn't ended needs more.
fn open_bytes(place: BytePlace) -> usize
    ensures value { section_from place [] ≡ record { lines = result; closing = 0 } }
    ensures few { result ≤ 1 }
{
    match place {
        BytePlace::Before => 0,
        BytePlace::Between => 0,
        BytePlace::Inside => 1,
    }
}

fn scan_step(bytes: &[u8], place: BytePlace) -> ScanStep
    requires { 0 < length bytes.now }
    ensures { ScanStepSays place bytes.now result }
{
    match place {
        BytePlace::Inside => step_inside(bytes),
        BytePlace::Between => step_between(bytes),
        BytePlace::Before => step_before(bytes),
    }
}

fn step_inside(bytes: &[u8]) -> ScanStep
    requires { 0 < length bytes.now }
    ensures { ScanStepSays Inside bytes.now result }
{
    if bytes[0] == b'\n' {
        ScanStep::Goes(BytePlace::Between)
    } else {
        ScanStep::Goes(BytePlace::Inside)
    }
}

fn step_between(bytes: &[u8]) -> ScanStep
    requires { 0 < length bytes.now }
    ensures { ScanStepSays Between bytes.now result }
{
    let closing = line_end_length(bytes);
    if closing > 0 {
        return ScanStep::Ends(closing);
    }
    if is_return_alone(bytes) {
        return ScanStep::Stops;
    }
    ScanStep::Goes(BytePlace::Inside)
}

fn step_before(bytes: &[u8]) -> ScanStep
    requires { 0 < length bytes.now }
    ensures { ScanStepSays Before bytes.now result }
{
    if line_end_length(bytes) > 0 {
        return ScanStep::Goes(BytePlace::Before);
    }
    if is_return_alone(bytes) {
        return ScanStep::Stops;
    }
    ScanStep::Goes(BytePlace::Inside)
}

fn line_end_length(bytes: &[u8]) -> usize
    ensures { result ≡ line_end_length bytes.now }
{
    match bytes {
        [] => 0,
        [first, after @ ..] => {
            if *first == b'\n' {
                return 1;
            }
            if *first == b'\r' && begins_with_line_feed(after) {
                return 2;
            }
            0
        }
    }
}

fn begins_with_line_feed(bytes: &[u8]) -> bool
    ensures { result ≡ begins_with_line_feed bytes.now }
{
    match bytes {
        [] => false,
        [first, ..] => *first == b'\n',
    }
}

fn is_return_alone(bytes: &[u8]) -> bool
    ensures { result ≡ is_return_alone bytes.now }
{
    match bytes {
        [] => false,
        [first] => *first == b'\r',
        [_, _, ..] => false,
    }
}

/// How many bytes the line ends in front have.
fn blank_length(bytes: &[u8]) -> usize
    ensures value { result ≡ blank_length bytes.now }
    ensures within { result ≤ length bytes.now }
{
    let mut at = 0;
    'ends: while at < bytes.len() {
        if line_end_length(&bytes[at..]) == 0 {
            return at;
        }
        at += 1;
    }
    at
}

/// Whether the bytes are line ends and nothing else, fewer than would be too large a head.
pub(crate) fn is_idle(bytes: &[u8]) -> bool
    ensures { result ≡ is_idle bytes.now }
{
    bytes.len() < MOST_HEAD_BYTES && blank_length(bytes) == bytes.len()
}

/// The lines of a whole head between its first line and the empty one.
#[tactic(auto, unfolding(crate::specs::Sections::header_lines))]
pub(crate) fn header_lines(head: &[u8]) -> usize
    ensures { result ≡ header_lines head.now }
{
    count_line_feeds(&head[blank_length(head)..]).saturating_sub(2)
}

fn count_line_feeds(bytes: &[u8]) -> usize
    ensures { result ≡ count_by is_line_feed_byte bytes.now }
{
    bytes.iter().filter(|b| **b == b'\n').count()
}

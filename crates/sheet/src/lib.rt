// The sheet's bytes: its records, and reading them.
#![tactic(auto)]

mod contents;
mod refusal;

ghost use Rattle.std.specs.Prelude.{not, ◌≡◌, ◌+◌, ◌<◌, ◌≤◌, if◌then◌else◌};
ghost use Rattle.sheet.specs.Bytes.{byte_at, word_at, long_at, ends_inside};
ghost use Rattle.sheet.specs.Layout.{first_edition, second_edition, has_third, third_at, delay_place, module_record, event_record};
ghost use Rattle.sheet.specs.Outcome.{finished};
ghost use Rattle.sheet.specs.Told.{as_refused, refusal_in};
ghost use Rattle.sheet.specs.Range.{zero_or_above, horizon_answer};
ghost use Rattle.sheet.specs.Reading.{count_read, node_read, module_read, event_read};

pub use contents::{Contents, Section};
use level::Level;
pub use refusal::{Answer, Refusal};

// The sizes of a count and of an event's record; a node's and a watched node's is one byte.
pub const COUNT_SIZE: u32 = 2;

pub const EVENT_SIZE: u32 = 6;

// The same, to reckon with lengths.
pub const COUNT_BYTES: usize = COUNT_SIZE as usize;

pub const EVENT_BYTES: usize = EVENT_SIZE as usize;

// The ranges of the counts.
pub const LEAST_NODES: u16 = 1;

pub const MOST_NODES: u16 = 256;

pub const MOST_MODULES: u16 = 256;

pub const MOST_EVENTS: u16 = 1024;

pub const MOST_WATCHED: u16 = 256;

// The same as sizes of arrays.
pub const NODES: usize = MOST_NODES as usize;

pub const MODULES: usize = MOST_MODULES as usize;

pub const EVENTS: usize = MOST_EVENTS as usize;

pub const WATCHED: usize = MOST_WATCHED as usize;

// The byte of a node that is an input, and the greatest value of a cell.
pub const INPUT: u8 = 4;

pub const LAST_VALUE: u8 = Level::NONE;

// The longest delay, and the last tick of an event.
pub const LONGEST_DELAY: u16 = 10000;

pub const LAST_TICK: u32 = 999999;

// The greatest horizon, and the most changes that may be pending after a tick.
pub const GREATEST_HORIZON: u32 = 1000000;

pub const PENDING_LIMIT: usize = 4096;

// The size of a module's record in document 01's edition, and in document 02's, which has a third input.
const FIRST_SIZE: u8 = 7;

const SECOND_SIZE: u8 = 8;

// What tells editions of the sheet apart: a module record's size in bytes, and the greatest kind. That it is one of the two, `Known`, is asked
// where it is needed and is no ghost field: `module_record`, `read_sheet` and others promise their answer for every size and kind.
#[derive(Clone, Copy)]
pub struct Edition {
    pub size: u8,
    pub greatest: u8,
}

// Document 01's edition, and document 02's.
pub fn first_edition() -> Edition
    ensures { result ≡ first_edition }
{
    Edition {
        size: FIRST_SIZE,
        greatest: level::LAST_OF_TWO,
    }
}

pub fn second_edition() -> Edition
    ensures { result ≡ second_edition }
{
    Edition {
        size: SECOND_SIZE,
        greatest: level::LAST_KIND,
    }
}

// Refuses a number that is 0 or above the greatest, with what a caller says.
pub fn range_answer<E: Drop>(refusal: E, greatest: u32, n: u32) -> Result<(), E>
    ensures { result ≡ (if zero_or_above greatest n then Err refusal else Ok tt) }
{
    if n == 0 || greatest < n {
        return Err(refusal);
    }
    Ok(())
}

// Refuses a horizon outside its range.
pub fn horizon_answer(horizon: u32) -> Result<(), Refusal>
    ensures { refusal_in result ≡ horizon_answer horizon }
{
    range_answer(Refusal::HorizonOutside, GREATEST_HORIZON, horizon)
}

// A module's record. Its kind is a byte, as it stands in the sheet: `record_rows` tries any.
#[derive(Clone, Copy)]
pub struct Module {
    pub kind: u8,
    pub parameter: u8,
    pub output: u8,
    pub first: u8,
    pub second: u8,
    pub third: u8,
    pub delay: u16,
}

// A drive event's record.
#[derive(Clone, Copy)]
pub struct Event {
    pub tick: u32,
    pub node: u8,
    pub value: u8,
}

// What stands where no record is read.
pub const NO_MODULE: Module = Module {
    kind: 0,
    parameter: 0,
    output: 0,
    first: 0,
    second: 0,
    third: 0,
    delay: 0,
};

pub const NO_EVENT: Event = Event {
    tick: 0,
    node: 0,
    value: 0,
};

// The byte at a place, and 0 past the end.
pub fn byte(s: &[u8], p: usize) -> u8
    ensures { result ≡ byte_at s.now p }
{
    s.get(p).copied().unwrap_or(0)
}

// The number of two bytes at a place, the low byte first.
pub fn word(s: &[u8], p: u32) -> u16
    ensures { result ≡ word_at s.now p }
{
    let at = p as usize;
    u16::from_le_bytes([byte(s, at), byte(s, at + 1)])
}

// The number of four bytes at a place.
pub fn long(s: &[u8], p: u32) -> u32
    ensures { result ≡ long_at s.now p }
{
    let at = p as usize;
    u32::from_le_bytes([
        byte(s, at),
        byte(s, at + 1),
        byte(s, at + 2),
        byte(s, at + 3),
    ])
}

// Whether the bytes do not end inside what stands at a place, so many bytes long.
fn whole(s: &[u8], p: u32, size: usize) -> bool
    requires { size < 65536 }
    ensures { result ≡ not (ends_inside s.now p size) }
{
    (p as usize) + size <= s.len()
}

// The count at a place: none where the bytes end inside it, and so of each record.
pub fn count_at(s: &[u8], p: u32) -> Option<u16>
    ensures { result ≡ count_read s.now p }
{
    whole(s, p, COUNT_BYTES).then(|| word(s, p))
}

// The node, or watched node, at a place.
pub fn node_at(s: &[u8], p: u32) -> Option<u8>
    ensures { result ≡ node_read s.now p }
{
    whole(s, p, 1).then(|| byte(s, p as usize))
}

// Whether an edition's module records have a third input.
pub fn has_third(e: Edition) -> bool
    ensures { result ≡ has_third e }
{
    FIRST_SIZE < e.size
}

// The third input of the module's record at a place, 0 in an edition that has none.
pub fn third_at(e: Edition, s: &[u8], p: u32) -> u8
    ensures { result ≡ third_at e s.now p }
{
    if has_third(e) {
        byte(s, (p as usize) + 5)
    } else {
        0
    }
}

// Where the delay stands in the module's record at a place.
pub fn delay_place(e: Edition, p: u32) -> usize
    ensures { (result ≡ delay_place e p) × (result ≤ p + 6) }
{
    if has_third(e) {
        (p as usize) + 6
    } else {
        (p as usize) + 5
    }
}

// The module's record at a place, and zeros past the end.
pub fn module_record(e: Edition, s: &[u8], p: u32) -> Module
    ensures { result ≡ module_record e s.now p }
{
    let at = p as usize;
    let third = third_at(e, s, p);
    let delay = delay_place(e, p);
    Module {
        kind: byte(s, at),
        parameter: byte(s, at + 1),
        output: byte(s, at + 2),
        first: byte(s, at + 3),
        second: byte(s, at + 4),
        third,
        delay: u16::from_le_bytes([byte(s, delay), byte(s, delay + 1)]),
    }
}

pub fn module_at(e: Edition, s: &[u8], p: u32) -> Option<Module>
    ensures { result ≡ module_read e s.now p }
{
    whole(s, p, e.size as usize).then(|| module_record(e, s, p))
}

// The event's record at a place, and zeros past the end.
pub fn event_record(s: &[u8], p: u32) -> Event
    ensures { result ≡ event_record s.now p }
{
    let at = p as usize;
    Event {
        tick: long(s, p),
        node: byte(s, at + 4),
        value: byte(s, at + 5),
    }
}

pub fn event_at(s: &[u8], p: u32) -> Option<Event>
    ensures { result ≡ event_read s.now p }
{
    whole(s, p, EVENT_BYTES).then(|| event_record(s, p))
}

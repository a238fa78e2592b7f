// What is wrong, in words: each refusal's phrase, and what its place counts.
#![tactic(auto)]

ghost use Rattle.std.specs.Prelude.{◌≡◌, ◌++◌, MatchOption};
ghost use Rattle.lent.specs.Letters.{letters};
ghost use Rattle.reason.specs.Phrases.{before};
ghost use Rattle.reason.specs.Reason.{reason, unlisted_reason};
ghost use Rattle.lent.specs.Lent.{Puts};

use lent::Writer;

// The sort of a place: what it counts.
#[derive(Clone, Copy)]
pub enum Sort {
    Byte,
    Node,
    Tick,
    Length,
    Pulses,
    Bare,
}

// Puts how a sort is said before its place.
fn put_sort(out: &mut Writer, sort: Sort)
    ensures { Puts (letters (before sort)) out.old out.new }
{
    match sort {
        Sort::Byte => out.put_all(b", at the sheet's byte "),
        Sort::Node => out.put_all(b", at node "),
        Sort::Tick => out.put_all(b", at tick "),
        Sort::Length => out.put_all(b", length needed "),
        Sort::Pulses => out.put_all(b", pulses to report "),
        Sort::Bare => out.put_all(b", place "),
    }
}

// Puts a phrase: what is wrong, and the sort of the place.
fn put_phrase(out: &mut Writer, wrong: &[u8], sort: Sort)
    ensures { Puts (wrong.now ++ letters (before sort)) out.old out.new }
{
    out.put_all(wrong);
    put_sort(out, sort);
}

// Puts a number that no row has, as itself.
#[tactic(auto, using(lent::proofs::Putting::puts_then), unfolding(lent::specs::Letters::letters))]
fn put_unlisted(out: &mut Writer, number: u32)
    ensures { Puts (unlisted_reason number) out.old out.new }
{
    out.put_all(b"the reason is not listed, number ");
    out.put_decimal(number);
    put_sort(out, Sort::Bare);
}

// Document 02's table: what is wrong by refusals 1 to 26, in order, and the sort of the place. It stands in three parts: a constant array that holds
// references is made anew on the stack where it is read, and as one array of all rows a sentence took up to a quarter more time.
const FIRST_PHRASES: [(&[u8], Sort); 9] = [
    (b"the horizon is not from 1 to 1,000,000 ticks", Sort::Bare),
    (
        b"the sheet's bytes end inside a count or a record",
        Sort::Byte,
    ),
    (
        b"a count is out of range: nodes 1 to 256, modules 0 to 256, drive events 0 to 1,024, watched nodes 0 to 256",
        Sort::Byte,
    ),
    (
        b"a node's byte is neither an initial value, 0 to 3, nor 4 for an input",
        Sort::Byte,
    ),
    (
        b"a module's kind is not one that this edition of the sheet has",
        Sort::Byte,
    ),
    (
        b"a module's parameter is not allowed: a constant takes 0 to 3, a memory 0 to 15, any other kind 0",
        Sort::Byte,
    ),
    (
        b"a module's output or used input is no node, or an input that its kind lacks is not 0",
        Sort::Byte,
    ),
    (b"a module's delay is above 10,000 ticks", Sort::Byte),
    (
        b"a module drives a node that an earlier module drives already",
        Sort::Byte,
    ),
];

const MIDDLE_PHRASES: [(&[u8], Sort); 9] = [
    (
        b"a driven node is marked as an input, or an undriven node has an initial value",
        Sort::Node,
    ),
    (b"a drive event's tick is above 999,999", Sort::Byte),
    (
        b"a drive event's node is not an input of the sheet",
        Sort::Byte,
    ),
    (b"a drive event's value is above 3", Sort::Byte),
    (
        b"a drive event does not come after the one before it, by tick and then by node",
        Sort::Byte,
    ),
    (b"an input has no drive event at tick 0", Sort::Node),
    (
        b"a watched node is no node of the sheet, or does not come after the one before it",
        Sort::Byte,
    ),
    (b"bytes are left over after the sheet's end", Sort::Byte),
    (
        b"one or more modules of delay 0 form a closed chain",
        Sort::Node,
    ),
];

const LAST_PHRASES: [(&[u8], Sort); 8] = [
    (
        b"the listing has no room for all records of a tick",
        Sort::Tick,
    ),
    (
        b"more than 4,096 changes are pending after a tick",
        Sort::Tick,
    ),
    (
        b"the text buffer is shorter than the sentence",
        Sort::Length,
    ),
    (
        b"a module has a kind above 9, which the first edition of the sheet lacks",
        Sort::Byte,
    ),
    (
        b"the output buffer is shorter than the sheet to be written",
        Sort::Length,
    ),
    (b"the pulse width is not from 1 to 10,000 ticks", Sort::Bare),
    (
        b"the report buffer has no room for all pulses",
        Sort::Pulses,
    ),
    (
        b"the inputs and the events to draw are more than 1,024 together, or there is no input to draw events for",
        Sort::Bare,
    ),
];

// The row of a number, if the table has one. A refusal stays a number here: a caller from C may ask about any.
fn phrase(number: u32) -> Option<(&'static [u8], Sort)>
    ensures { MatchOption result (reason number ≡ unlisted_reason number) (λ p. reason number ≡ p.0.now ++ letters (before p.1)) }
{
    if number == 0 || number > 26 {
        return None;
    }
    if number <= 9 {
        return Some(FIRST_PHRASES[number as usize - 1]);
    }
    if number <= 18 {
        return Some(MIDDLE_PHRASES[number as usize - 10]);
    }
    Some(LAST_PHRASES[number as usize - 19])
}

// Puts what a refusal's number says, up to its place.
pub fn put_reason(out: &mut Writer, number: u32)
    ensures { Puts (reason number) out.old out.new }
{
    match phrase(number) {
        Some((wrong, sort)) => put_phrase(out, wrong, sort),
        None => put_unlisted(out, number),
    }
}

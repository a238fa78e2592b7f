// An answer as a sentence, for whoever has no table of the refusals at hand.
#![tactic(auto)]

ghost use Rattle.std.specs.Prelude.{◌≡◌, length};
ghost use Rattle.sheet.specs.Outcome.{finished, refused, outcome_of};
ghost use Rattle.sentence.specs.Sentence.{sentence};
ghost use Rattle.sentence.specs.Describing.{Describes};
ghost use Rattle.lent.specs.Lent.{Puts};

use lent::Writer;
use reason::put_reason;
use sheet::{Answer, Refusal};

// Every sentence has at most so many bytes.
const LONGEST: usize = 200;

// Puts a finished call's sentence.
fn put_finished(out: &mut Writer, count: u32)
    ensures { Puts (sentence (finished count)) out.old out.new }
{
    out.put_all(b"finished, with a count of ");
    out.put_decimal(count);
}

// Puts a refusal's sentence.
fn put_refused(out: &mut Writer, number: u32, place: u32, records: u32)
    ensures { Puts (sentence (refused number place records)) out.old out.new }
{
    out.put_all(b"refused: ");
    put_reason(out, number);
    out.put_decimal(place);
    out.put_all(b"; records written: ");
    out.put_decimal(records);
}

// Puts an answer's sentence; what does not fit is cut off.
pub fn put_sentence(out: &mut Writer, answer: Answer)
    ensures { Puts (sentence (outcome_of answer)) out.old out.new }
{
    match answer {
        Answer::Ran(count) => put_finished(out, count),
        Answer::Refused(number, place, records) => put_refused(out, number, place, records),
    }
}

// The bytes of an answer's sentence, measured in an array of its own: there is no heap, and `Describes` leaves a text that is too short as it
// was.
fn sentence_length(answer: Answer) -> u32
    ensures { result ≡ length (sentence (outcome_of answer)) }
{
    let mut room = [0u8; LONGEST];
    let mut out = Writer::new(&mut room);
    put_sentence(&mut out, answer);
    out.at as u32
}

// Describes an answer in a lent text: a finished call with the sentence's length, the sentence first in the text and bytes past it
// as they were. Refusal 21, with the length needed, leaves a text that is shorter than the sentence as it was.
pub fn describe(answer: Answer, text: &mut [u8]) -> Answer
    ensures { Describes (outcome_of answer) text.old (outcome_of result) text.new }
{
    let needed = sentence_length(answer);
    if text.len() < (needed as usize) {
        return Answer::from(Refusal::TextShort(needed));
    }
    put_sentence(&mut Writer::new(text), answer);
    Answer::Ran(needed)
}

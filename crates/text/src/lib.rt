// What the program prints: an answer's sentence and the listing's records as text.
#![tactic(auto)]

mod line;

ghost use Rattle.sheet.specs.Outcome.{outcome_of};
ghost use Rattle.lent.specs.Lent.{Printed, Puts};
ghost use Rattle.text.specs.Printing.{lines_after, printed_text};

use lent::Writer;
use line::put_lines;
use sentence::put_sentence;
use sheet::Answer;

// Puts the lines of a finished run's records; after a refusal there are none.
fn put_listed(out: &mut Writer, answer: Answer, listing: &[u8])
    ensures { Puts (lines_after (outcome_of answer) listing.now) out.old out.new }
{
    match answer {
        Answer::Ran(count) => put_lines(out, count, listing),
        Answer::Refused(_, _, _) => {}
    }
}

// Prints an answer's sentence, and after a finished run the listing's records, into a lent text.
// Answers how many bytes it wrote: what does not fit is cut off.
pub fn print(answer: Answer, listing: &[u8], text: &mut [u8]) -> usize
    ensures { Printed text.old (printed_text (outcome_of answer) listing.now) text.new result }
{
    let mut out = Writer::new(text);
    put_sentence(&mut out, answer);
    out.put(b'\n');
    put_listed(&mut out, answer, listing);
    out.at
}

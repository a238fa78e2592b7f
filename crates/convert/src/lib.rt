// A sheet of one edition in the other: each module record gains a third input of 0 or loses it, and all other bytes stay in their order.
#![tactic(auto)]

mod conversion;

ghost use Rattle.std.specs.Prelude.{◌≡◌};
ghost use Rattle.sheet.specs.Outcome.{finished};
ghost use Rattle.sheet.specs.Refusal.{checked};
ghost use Rattle.sheet.specs.Told.{answer_in};
ghost use Rattle.format.specs.Accepted.{Known};
ghost use Rattle.convert.specs.Conversion.{Converts};

use conversion::Conversion;
use format::length_answer;
use lent::Writer;
use sheet::{COUNT_SIZE, Edition, Refusal};

// Converts a sheet that its own edition accepts: refusal 22 or 23, or a finished call with the count of bytes written.
// The converted sheet stands first in the output; bytes past it are as they were. A refusal writes nothing.
pub fn convert(from: Edition, to: Edition, sheet: &[u8], output: &mut [u8]) -> Result<u32, Refusal>
    requires { Known from × Known to × (checked from sheet.now ≡ finished 0) }
    ensures { Converts from to sheet.now output.old (answer_in result) output.new }
{
    let modules = COUNT_SIZE + (sheet::word(sheet, 0) as u32);
    let conversion = Conversion {
        from,
        to,
        sheet,
        place: modules + COUNT_SIZE,
        n: sheet::word(sheet, modules),
    };
    conversion.kind_refusal()?;
    let written = length_answer(conversion.length_needed(), output.len())?;
    let mut out = Writer::new(output);
    conversion.put_sheet(&mut out);
    Ok(written)
}

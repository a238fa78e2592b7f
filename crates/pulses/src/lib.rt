// The report of pulses that are shorter than a width. It is made from a whole listing.
#![tactic(auto)]

mod reporting;

ghost use Rattle.std.specs.Prelude.{◌≡◌};
ghost use Rattle.sheet.specs.Outcome.{finished};
ghost use Rattle.sheet.specs.Told.{answer_in, refusal_in};
ghost use Rattle.format.specs.Made.{Makes};
ghost use Rattle.pulses.specs.InListing.{pulses_in};
ghost use Rattle.pulses.specs.Reporting.{asked, report_of};

use lent::Writer;
use reporting::{Reporting, room_answer};
use sheet::Refusal;

const GREATEST_WIDTH: u32 = 10000;

// The refusal of a horizon, and then of a width, outside its range.
pub fn range_refusal(horizon: u32, width: u32) -> Result<(), Refusal>
    ensures { refusal_in result ≡ asked horizon width }
{
    sheet::horizon_answer(horizon)?;
    sheet::range_answer(Refusal::WidthOutside, GREATEST_WIDTH, width)
}

// Reports the pulses of a listing of n records that are shorter than a width: refusal 25, or a finished call with the count of pulses.
// The pulses stand first in the report; bytes past them are as they were. A refusal writes nothing. The count stays beside the listing, since
// `pulses_in` of `report`'s promise is said of any count.
pub fn report(
    listing: &[u8],
    n: u32,
    horizon: u32,
    width: u32,
    report: &mut [u8],
) -> Result<u32, Refusal>
    ensures { Makes (finished n) (report_of (pulses_in horizon width listing.now n) n) report.old (answer_in result) report.new }
{
    let reporting = Reporting {
        listing,
        n,
        horizon,
        width,
    };
    let pulses = room_answer(reporting.count_pulses(), n, report.len())?;
    let mut out = Writer::new(report);
    reporting.put_pulses(&mut out);
    Ok(pulses)
}

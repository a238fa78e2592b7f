// The library: what users call, and what each call promises. A call that takes a sheet is there for each edition: the second's with _2, a
// conversion for each way. Each pair is one function inside, and stays a pair here since the header and the pages name each as a call.
#![tactic(auto)]

ghost use Rattle.std.specs.Prelude.{◌≡◌};
ghost use Rattle.sheet.specs.Layout.{first_edition, second_edition};
ghost use Rattle.sheet.specs.Outcome.{outcome_of};
ghost use Rattle.sheet.specs.Told.{answer_in, refusal_in};
ghost use Rattle.sheet.specs.Refusal.{checked_by, checked, checked_strictly};
ghost use Rattle.format.specs.Accepted.{Known};
ghost use Rattle.network.specs.Run.{RunLeaves};
ghost use Rattle.convert.specs.Conversion.{Converts};
ghost use Rattle.pulses.specs.Reporting.{Reports};
ghost use Rattle.loaded.specs.Loading.{Loads};

pub use sentence::describe;
pub use sheet::Answer;
use sheet::{Edition, Refusal};

// Checks a sheet of an edition, strictly or not: the refusals of its bytes, and then its zero-delay loops.
fn check_in(strict: bool, edition: Edition, bytes: &[u8]) -> Result<(), Refusal>
    ensures { refusal_in result ≡ checked_by strict edition bytes.now }
{
    let contents = reader::read_sheet(strict, edition, bytes)?;
    reach::loop_refusal(contents.modules.listed(), contents.nodes.count)
}

// Checks a sheet without running it: refusals 2 to 14 and 16 to 18, or a finished call with count 0.
pub fn check(sheet: &[u8]) -> Answer
    ensures { outcome_of result ≡ checked first_edition sheet.now }
{
    Answer::from(check_in(false, sheet::first_edition(), sheet))
}

pub fn check_2(sheet: &[u8]) -> Answer
    ensures { outcome_of result ≡ checked second_edition sheet.now }
{
    Answer::from(check_in(false, sheet::second_edition(), sheet))
}

// Checks a sheet and that each of its inputs has an event at tick 0: refusals 2 to 18, or a finished call with count 0.
pub fn check_strict(sheet: &[u8]) -> Answer
    ensures { outcome_of result ≡ checked_strictly first_edition sheet.now }
{
    Answer::from(check_in(true, sheet::first_edition(), sheet))
}

pub fn check_strict_2(sheet: &[u8]) -> Answer
    ensures { outcome_of result ≡ checked_strictly second_edition sheet.now }
{
    Answer::from(check_in(true, sheet::second_edition(), sheet))
}

// Runs a sheet to a horizon: refusals 1 to 20 except 15, or a finished run with the count of its records.
// The listing's records stand first in the buffer; bytes past them are as they were.
pub fn run(sheet: &[u8], horizon: u32, listing: &mut [u8]) -> Answer
    ensures { RunLeaves first_edition sheet.now horizon listing.old (outcome_of result) listing.new }
{
    Answer::from(run::run(sheet::first_edition(), sheet, horizon, listing))
}

pub fn run_2(sheet: &[u8], horizon: u32, listing: &mut [u8]) -> Answer
    ensures { RunLeaves second_edition sheet.now horizon listing.old (outcome_of result) listing.new }
{
    Answer::from(run::run(sheet::second_edition(), sheet, horizon, listing))
}

// Converts a sheet of an edition to the other: the check's refusals, and then the conversion's.
fn convert_in(from: Edition, to: Edition, sheet: &[u8], output: &mut [u8]) -> Result<u32, Refusal>
    requires { Known from × Known to }
    ensures { Converts from to sheet.now output.old (answer_in result) output.new }
{
    check_in(false, from, sheet)?;
    convert::convert(from, to, sheet, output)
}

// Converts a sheet of the first edition to the second: refusals 2 to 14, 16 to 18 and 23, or a finished call with the count of bytes
// written. The converted sheet stands first in the output; bytes past it are as they were. A refusal writes nothing.
pub fn convert_1_to_2(sheet: &[u8], output: &mut [u8]) -> Answer
    ensures { Converts first_edition second_edition sheet.now output.old (outcome_of result) output.new }
{
    Answer::from(convert_in(
        sheet::first_edition(),
        sheet::second_edition(),
        sheet,
        output,
    ))
}

// The other way, with refusal 22 besides: a kind above 9.
pub fn convert_2_to_1(sheet: &[u8], output: &mut [u8]) -> Answer
    ensures { Converts second_edition first_edition sheet.now output.old (outcome_of result) output.new }
{
    Answer::from(convert_in(
        sheet::second_edition(),
        sheet::first_edition(),
        sheet,
        output,
    ))
}

// Reports the pulses of a sheet of an edition that are shorter than a width: the refusals of horizon and width, the run, and then the report. It
// takes what the two calls take that it stands behind, which the header fixes.
fn pulses_in(
    edition: Edition,
    sheet: &[u8],
    horizon: u32,
    width: u32,
    listing: &mut [u8],
    report: &mut [u8],
) -> Result<u32, Refusal>
    requires { Known edition }
    ensures { Reports edition sheet.now horizon width listing.old report.old
        (answer_in result) listing.new report.new }
{
    pulses::range_refusal(horizon, width)?;
    let records = run::run(edition, sheet, horizon, listing)?;
    pulses::report(&*listing, records, horizon, width, report)
}

// Runs a sheet to a horizon and reports each pulse of a watched node that is shorter than a width: refusals 1, 24, 2 to 20 except 15, and 25,
// or a finished call with the count of pulses. The listing is left as the run leaves it, and untouched by 24. The pulses stand first in the
// report; bytes past them are as they were. A refusal writes nothing to the report.
pub fn pulses(
    sheet: &[u8],
    horizon: u32,
    width: u32,
    listing: &mut [u8],
    report: &mut [u8],
) -> Answer
    ensures { Reports first_edition sheet.now horizon width listing.old report.old
        (outcome_of result) listing.new report.new }
{
    Answer::from(pulses_in(
        sheet::first_edition(),
        sheet,
        horizon,
        width,
        listing,
        report,
    ))
}

pub fn pulses_2(
    sheet: &[u8],
    horizon: u32,
    width: u32,
    listing: &mut [u8],
    report: &mut [u8],
) -> Answer
    ensures { Reports second_edition sheet.now horizon width listing.old report.old
        (outcome_of result) listing.new report.new }
{
    Answer::from(pulses_in(
        sheet::second_edition(),
        sheet,
        horizon,
        width,
        listing,
        report,
    ))
}

// Fills the drive of a sheet of an edition from a seed: the check's refusals, and then the load's.
fn load_in(
    edition: Edition,
    sheet: &[u8],
    seed: u32,
    n: u32,
    output: &mut [u8],
) -> Result<u32, Refusal>
    requires { Known edition }
    ensures { Loads edition sheet.now seed n output.old (answer_in result) output.new }
{
    check_in(false, edition, sheet)?;
    loaded::load(edition, sheet, seed, n, output)
}

// Fills the drive of a sheet from a seed, replacing its events: one at tick 0 for each input, and then n more. Refusals 2 to 14, 16 to 18, 26 and
// 23, or a finished call with the count of bytes written. The loaded sheet stands first in the output; bytes past it are as they were. A
// refusal writes nothing.
pub fn load(sheet: &[u8], seed: u32, n: u32, output: &mut [u8]) -> Answer
    ensures { Loads first_edition sheet.now seed n output.old (outcome_of result) output.new }
{
    Answer::from(load_in(sheet::first_edition(), sheet, seed, n, output))
}

pub fn load_2(sheet: &[u8], seed: u32, n: u32, output: &mut [u8]) -> Answer
    ensures { Loads second_edition sheet.now seed n output.old (outcome_of result) output.new }
{
    Answer::from(load_in(sheet::second_edition(), sheet, seed, n, output))
}

// The library's entry points for other languages. A slice passes as a pointer and a length. A call that takes a sheet is there for each
// edition: the second's with _2, a conversion for each way, as the C interface has them.
#![tactic(auto)]

ghost use Rattle.std.specs.Prelude.{◌≡◌};
ghost use Rattle.sheet.specs.Layout.{first_edition, second_edition};
ghost use Rattle.sheet.specs.Outcome.{Outcome, outcome_of, numbers, from_numbers};
ghost use Rattle.sheet.specs.Refusal.{checked, checked_strictly};
ghost use Rattle.network.specs.Run.{RunLeaves};
ghost use Rattle.convert.specs.Conversion.{Converts};
ghost use Rattle.pulses.specs.Reporting.{Reports};
ghost use Rattle.loaded.specs.Loading.{Loads};
ghost use Rattle.sentence.specs.Describing.{Describes};

use timing::Answer;

#[unsafe(no_mangle)]
pub extern "C" fn timing_check(sheet: &[u8], answer: &mut [u32; 3])
    ensures { answer.new ≡ numbers (checked first_edition sheet.now) }
{
    *answer = timing::check(sheet).into();
}

#[unsafe(no_mangle)]
pub extern "C" fn timing_check_2(sheet: &[u8], answer: &mut [u32; 3])
    ensures { answer.new ≡ numbers (checked second_edition sheet.now) }
{
    *answer = timing::check_2(sheet).into();
}

#[unsafe(no_mangle)]
pub extern "C" fn timing_check_strict(sheet: &[u8], answer: &mut [u32; 3])
    ensures { answer.new ≡ numbers (checked_strictly first_edition sheet.now) }
{
    *answer = timing::check_strict(sheet).into();
}

#[unsafe(no_mangle)]
pub extern "C" fn timing_check_strict_2(sheet: &[u8], answer: &mut [u32; 3])
    ensures { answer.new ≡ numbers (checked_strictly second_edition sheet.now) }
{
    *answer = timing::check_strict_2(sheet).into();
}

// The three numbers are those of the answer that the run leaves.
#[unsafe(no_mangle)]
pub extern "C" fn timing_run(sheet: &[u8], horizon: u32, listing: &mut [u8], answer: &mut [u32; 3])
    ensures { (o : Outcome) × (answer.new ≡ numbers o)
        × RunLeaves first_edition sheet.now horizon listing.old o listing.new }
{
    *answer = timing::run(sheet, horizon, listing).into();
}

#[unsafe(no_mangle)]
pub extern "C" fn timing_run_2(
    sheet: &[u8],
    horizon: u32,
    listing: &mut [u8],
    answer: &mut [u32; 3],
)
    ensures { (o : Outcome) × (answer.new ≡ numbers o)
        × RunLeaves second_edition sheet.now horizon listing.old o listing.new }
{
    *answer = timing::run_2(sheet, horizon, listing).into();
}

// The three numbers are those of the answer to the conversion.
#[unsafe(no_mangle)]
pub extern "C" fn timing_convert_1_to_2(sheet: &[u8], output: &mut [u8], answer: &mut [u32; 3])
    ensures { (o : Outcome) × (answer.new ≡ numbers o)
        × Converts first_edition second_edition sheet.now output.old o output.new }
{
    *answer = timing::convert_1_to_2(sheet, output).into();
}

#[unsafe(no_mangle)]
pub extern "C" fn timing_convert_2_to_1(sheet: &[u8], output: &mut [u8], answer: &mut [u32; 3])
    ensures { (o : Outcome) × (answer.new ≡ numbers o)
        × Converts second_edition first_edition sheet.now output.old o output.new }
{
    *answer = timing::convert_2_to_1(sheet, output).into();
}

// The three numbers are those of the answer to the report.
#[unsafe(no_mangle)]
pub extern "C" fn timing_pulses(
    sheet: &[u8],
    horizon: u32,
    width: u32,
    listing: &mut [u8],
    report: &mut [u8],
    answer: &mut [u32; 3],
)
    ensures { (o : Outcome) × (answer.new ≡ numbers o)
        × Reports first_edition sheet.now horizon width listing.old report.old
        o listing.new report.new }
{
    *answer = timing::pulses(sheet, horizon, width, listing, report).into();
}

#[unsafe(no_mangle)]
pub extern "C" fn timing_pulses_2(
    sheet: &[u8],
    horizon: u32,
    width: u32,
    listing: &mut [u8],
    report: &mut [u8],
    answer: &mut [u32; 3],
)
    ensures { (o : Outcome) × (answer.new ≡ numbers o)
        × Reports second_edition sheet.now horizon width listing.old report.old
        o listing.new report.new }
{
    *answer = timing::pulses_2(sheet, horizon, width, listing, report).into();
}

// The three numbers are those of the answer to the load.
#[unsafe(no_mangle)]
pub extern "C" fn timing_load(
    sheet: &[u8],
    seed: u32,
    n: u32,
    output: &mut [u8],
    answer: &mut [u32; 3],
)
    ensures { (o : Outcome) × (answer.new ≡ numbers o)
        × Loads first_edition sheet.now seed n output.old o output.new }
{
    *answer = timing::load(sheet, seed, n, output).into();
}

#[unsafe(no_mangle)]
pub extern "C" fn timing_load_2(
    sheet: &[u8],
    seed: u32,
    n: u32,
    output: &mut [u8],
    answer: &mut [u32; 3],
)
    ensures { (o : Outcome) × (answer.new ≡ numbers o)
        × Loads second_edition sheet.now seed n output.old o output.new }
{
    *answer = timing::load_2(sheet, seed, n, output).into();
}

// Describes the answer that three numbers stand for.
#[unsafe(no_mangle)]
pub extern "C" fn timing_describe(
    number: u32,
    place: u32,
    count: u32,
    text: &mut [u8],
    answer: &mut [u32; 3],
)
    ensures { (o : Outcome) × (answer.new ≡ numbers o)
        × Describes (from_numbers number place count) text.old o text.new }
{
    *answer = timing::describe(Answer::from([number, place, count]), text).into();
}

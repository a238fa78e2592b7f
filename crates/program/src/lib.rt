// The program as a function of its input: the horizon and the sheet are run, and the answer and its records printed.
#![tactic(auto)]

ghost use Rattle.std.specs.Prelude.{◌≡◌};
ghost use Rattle.lent.specs.Lent.{Printed};
ghost use Rattle.program.specs.Program.{horizon_in, sheet_in, listing_of, program_text};

// The bytes of the horizon.
const HORIZON: usize = 4;

// The bytes of an input that are looked at: the horizon, and one more than the 8,456 that document 01 counts for the longest sheet.
pub const INPUT: usize = HORIZON + 8457;

// The horizon: the input's first four bytes, missing ones being 0.
fn horizon_in(input: &[u8]) -> u32
    ensures { result ≡ horizon_in input.now }
{
    sheet::long(input, 0)
}

// The sheet: what follows the horizon, and at most 8,457 bytes of it.
fn sheet_in(input: &[u8]) -> &[u8]
    ensures { result.now ≡ sheet_in input.now }
{
    let n = input.len();
    &input[n.min(HORIZON)..n.min(INPUT)]
}

// Runs the input's sheet to its horizon over a lent listing, and prints the answer and its records into a lent text.
// Answers how many bytes it printed.
pub fn simulate(input: &[u8], listing: &mut [u8], text: &mut [u8]) -> usize
    ensures { (listing.new ≡ listing_of input.now listing.old)
        × Printed text.old (program_text input.now listing.old) text.new result }
{
    let answer = timing::run(sheet_in(input), horizon_in(input), listing);
    text::print(answer, listing, text)
}

// A sheet with a drive that is drawn from a seed in place of its own.
#![tactic(auto)]

mod finding;
mod loading;

ghost use Rattle.std.specs.Prelude.{◌≡◌};
ghost use Rattle.sheet.specs.Outcome.{finished};
ghost use Rattle.sheet.specs.Refusal.{checked};
ghost use Rattle.sheet.specs.Told.{answer_in};
ghost use Rattle.format.specs.Accepted.{Known};
ghost use Rattle.loaded.specs.Loading.{Loads};

use finding::{find_inputs, find_places};
use loading::Loading;
use sheet::{Edition, NODES, Refusal};

// Loads a sheet that its edition accepts: refusal 26 or 23, or a finished call with the count of bytes written.
// The loaded sheet stands first in the output; bytes past it are as they were. A refusal writes nothing.
pub fn load(
    edition: Edition,
    sheet: &[u8],
    seed: u32,
    n: u32,
    output: &mut [u8],
) -> Result<u32, Refusal>
    requires { Known edition × (checked edition sheet.now ≡ finished 0) }
    ensures { Loads edition sheet.now seed n output.old (answer_in result) output.new }
{
    let (drive, watched) = find_places(edition, sheet);
    // At most every node is an input: the array is fixed memory, and its count stands beside it.
    let mut found: [u8; NODES] = [0; NODES];
    let count = find_inputs(&mut found, sheet, sheet::word(sheet, 0));
    let loading = Loading {
        before: &sheet[..drive as usize],
        after: &sheet[watched as usize..],
        inputs: &found[..count],
        seed,
        n,
    };
    loading.load(output)
}

// The sheet's format: what an accepted sheet is, and that reading and encoding are inverse. Definitions and theorems, but for the answer to
// writing a sheet.
#![tactic(auto)]

ghost use Rattle.std.specs.Prelude.{List, ◌≡◌, ℕ, ◌<◌, length};
ghost use Rattle.sheet.specs.Told.{answer_in};
ghost use Rattle.format.specs.Made.{written_answer, sheet_made};

use sheet::Refusal;

// The answer to writing a sheet of so many bytes to an output of so many.
pub fn length_answer(needed: usize, bytes: usize) -> Result<u32, Refusal>
    requires { needed < 4294967296 }
    ensures { (sheet : List ℕ) → length sheet ≡ needed → answer_in result ≡ written_answer (sheet_made sheet) bytes }
{
    if bytes < needed {
        return Err(Refusal::OutputShort(needed as u32));
    }
    Ok(needed as u32)
}

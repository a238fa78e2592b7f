// A sheet to be loaded, in its parts.
ghost use Rattle.std.specs.Prelude.{◌≡◌, ◌+◌, ◌*◌, ◌<◌, ◌≤◌, ◌++◌, length};
ghost use Rattle.sheet.specs.Refusal.{first};
ghost use Rattle.sheet.specs.Told.{answer_in, refusal_in};
ghost use Rattle.format.specs.Made.{Makes, sheet_made};
ghost use Rattle.lent.specs.Lent.{Puts};
ghost use Rattle.draw.specs.Drive.{drawn_drive, drive_bytes};
ghost use Rattle.loaded.specs.Loading.{drawn_rows};

use draw::put_drive;
use format::length_answer;
use lent::Writer;
use sheet::{COUNT_BYTES, EVENT_BYTES, EVENTS, Refusal};

// The bytes before the drive's section and after it, the inputs, and the seed and the count of what is drawn for them.
#[derive(Clone, Copy)]
pub(crate) struct Loading<'a> {
    pub before: &'a [u8],
    pub after: &'a [u8],
    pub inputs: &'a [u8],
    pub seed: u32,
    pub n: u32,
    ghost short: { length before.now + length after.now ≤ 131070 },
    ghost few: { length inputs.now ≤ 256 },
}

impl Loading<'_> {
    // Refuses events to draw where there is no input, and more events than a drive takes. The count n may be any.
    #[tactic(auto, unfolding(sheet::specs::Refusal::first))]
    fn drawn_answer(&self) -> Result<(), Refusal>
        ensures { refusal_in result ≡ first (drawn_rows (length self.now.inputs.now) self.now.n) }
    {
        if EVENTS < self.inputs.len() + (self.n as usize) || 0 < self.n && self.inputs.is_empty() {
            return Err(Refusal::DrawnTooMany);
        }
        Ok(())
    }

    // The bytes of the loaded sheet.
    fn length(&self) -> usize
        ensures { result ≡ length self.now.before.now + 2 + 6 * (length self.now.inputs.now + self.now.n) + length self.now.after.now }
    {
        self.before.len()
            + COUNT_BYTES
            + EVENT_BYTES * (self.inputs.len() + (self.n as usize))
            + self.after.len()
    }

    // Puts the loaded sheet.
    fn put_sheet(&self, out: &mut Writer)
        requires { (length self.now.inputs.now + self.now.n ≤ 1024) × (0 < self.now.n → 0 < length self.now.inputs.now) }
        ensures { Puts (self.now.before.now ++ drive_bytes (drawn_drive self.now.inputs.now self.now.seed self.now.n) ++ self.now.after.now) out.old out.new }
    {
        out.put_all(self.before);
        put_drive(out, self.inputs, self.seed, self.n);
        out.put_all(self.after);
    }

    // Writes the loaded sheet to an output that takes it whole.
    pub(crate) fn load(&self, output: &mut [u8]) -> Result<u32, Refusal>
        ensures { Makes (first (drawn_rows (length self.now.inputs.now) self.now.n))
            (sheet_made (self.now.before.now ++ drive_bytes (drawn_drive self.now.inputs.now self.now.seed self.now.n) ++ self.now.after.now))
            output.old (answer_in result) output.new }
    {
        self.drawn_answer()?;
        let written = length_answer(self.length(), output.len())?;
        let mut out = Writer::new(output);
        self.put_sheet(&mut out);
        Ok(written)
    }
}

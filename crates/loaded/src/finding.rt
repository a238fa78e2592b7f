// What a load looks for in an accepted sheet: its inputs, and where the drive's section stands.
ghost use Rattle.std.specs.Prelude.{◌≡◌, ◌≤◌, eqb};
ghost use Rattle.sheet.specs.Enumerate.{chosen};
ghost use Rattle.sheet.specs.Layout.{node_at, drive_place, watched_place};
ghost use Rattle.sheet.specs.Limits.{input_byte};
ghost use Rattle.lent.specs.Lent.{Printed};

use lent::Writer;
use sheet::{COUNT_BYTES, COUNT_SIZE, EVENT_SIZE, Edition, INPUT};

// Puts the inputs of a sheet of so many nodes, in rising order. Answers their count.
pub(crate) fn find_inputs(found: &mut [u8], sheet: &[u8], nodes: u16) -> usize
    requires { nodes ≤ 256 }
    ensures { Printed found.old (chosen nodes (λ v. eqb (node_at sheet.now v) input_byte) (λ v. v)) found.new result }
{
    let mut inputs = Writer::new(found);
    for v in 0..nodes {
        if sheet::byte(sheet, COUNT_BYTES + (v as usize)) == INPUT {
            inputs.put(v as u8);
        }
    }
    inputs.at
}

// Where the drive's section begins, and where that of the watched nodes does.
pub(crate) fn find_places(edition: Edition, sheet: &[u8]) -> (u32, u32)
    ensures { (result.0 ≡ drive_place edition sheet.now) × (result.1 ≡ watched_place edition sheet.now) }
{
    let modules = COUNT_SIZE + (sheet::word(sheet, 0) as u32);
    let n = sheet::word(sheet, modules);
    let drive = modules + COUNT_SIZE + (edition.size as u32) * (n as u32);
    let events = sheet::word(sheet, drive);
    (drive, drive + COUNT_SIZE + EVENT_SIZE * (events as u32))
}

// The sheet reader, and a sheet read through it: four sections in their order.
// What stands in a section is read by functions over its bytes and place.
#![tactic(auto)]

mod sections;

ghost use Rattle.sheet.specs.Refusal.{bytes_rows};
ghost use Rattle.sheet.specs.Told.{Told};
ghost use Rattle.reader.specs.Read.{SheetHeld};

use crate::sections::SheetReader;
use sheet::{Contents, Edition, Refusal};

// Reads a sheet of an edition, strictly or not, whatever its bytes are: what it holds, or the first refusal met in its bytes, 2 to 17.
pub fn read_sheet(strict: bool, e: Edition, bytes: &[u8]) -> Result<Contents, Refusal>
    ensures { Told (bytes_rows strict e bytes.now) (SheetHeld e bytes.now) result }
{
    let mut reader = SheetReader { bytes, at: 0 };
    let nodes = reader.nodes()?;
    let read = reader.modules(e, &nodes)?;
    let drive = reader.drive(strict, e, nodes.count, &read.driven)?;
    let watched = reader.watched(e, nodes.count)?;
    Ok(Contents {
        nodes,
        modules: read.modules,
        drive,
        watched,
    })
}

// The run of a sheet: it is read, its modules are put in working order and loaded, and then the ticks are taken in turn.
#![tactic(auto)]

mod accepted;
mod ticks;

ghost use Rattle.sheet.specs.Told.{answer_in};
ghost use Rattle.format.specs.Accepted.{Known};
ghost use Rattle.network.specs.Run.{RunLeaves};

use crate::accepted::run_accepted;
use sheet::{Edition, MODULES, Refusal};

// Runs a sheet of an edition to a horizon and lists the changes of its watched nodes:
// refusals 1 to 20 except 15, or a finished run with the count of records.
pub fn run(edition: Edition, bytes: &[u8], horizon: u32, listing: &mut [u8]) -> Result<u32, Refusal>
    requires { Known edition }
    ensures { RunLeaves edition bytes.now horizon listing.old (answer_in result) listing.new }
{
    sheet::horizon_answer(horizon)?;
    let contents = reader::read_sheet(false, edition, bytes)?;
    let mut order = [0; MODULES];
    order::arranged(contents.modules.listed(), contents.nodes.count, &mut order)?;
    let records = records::in_working_order(
        &contents.modules.records,
        contents.modules.count,
        &order,
    );
    let modules = &records[..contents.modules.count as usize];
    run_accepted(&contents, horizon, modules, listing)
}

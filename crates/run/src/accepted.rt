// A run of an accepted sheet whose records stand in working order.
ghost use Rattle.std.specs.Prelude.{◌≡◌, ◌<◌, ◌≤◌, length};
ghost use Rattle.sheet.specs.Limits.{greatest_horizon};
ghost use Rattle.sheet.specs.Sheet.{Sheet};
ghost use Rattle.sheet.specs.Contents.{held_sheet};
ghost use Rattle.sheet.specs.Told.{answer_in};
ghost use Rattle.sheet.specs.WorkingOrder.{in_working_order};
ghost use Rattle.format.specs.Accepted.{Accepted};
ghost use Rattle.network.specs.Run.{ran_sheet, Leaves};

use crate::ticks::ticks;
use level::Level;
use listing::Listing;
use load::{count_delayed, load_last, load_modules, load_values};
use pending::Pending;
use sheet::{Contents, MODULES, Module, NODES, Refusal};
use tick::{Ahead, COUNTS, Carried, NO_ROW, Network, Present, load_counts};

// Runs what is held of an accepted sheet to a horizon in range, its modules in working order: all is filled once, and then the ticks begin.
#[tactic(auto, using(crate::proofs::Held::few_modules, load::proofs::Begun::zero_levels))]
pub(crate) fn run_accepted(
    contents: &Contents,
    horizon: u32,
    modules: &[Module],
    listing: &mut [u8],
) -> Result<u32, Refusal>
    ghost sheet: { Sheet }
    requires { (held_sheet contents.now ≡ sheet) × Accepted sheet × (modules.now ≡ in_working_order sheet)
        × (0 < horizon) × (horizon ≤ greatest_horizon) }
    ensures { Leaves (ran_sheet sheet horizon (length listing.old)) listing.old (answer_in result) listing.new }
{
    let mut rows = [NO_ROW; MODULES];
    let rows = &mut rows[..modules.len()];
    let shared = load_modules(modules, rows);
    let delayed = count_delayed(contents.modules.listed());
    let mut values = [Level::LOW; NODES];
    load_values(contents.nodes.listed(), &mut values);
    let mut last = [Level::LOW; MODULES];
    load_last(modules, &values, &mut last);
    let mut counts = [0; COUNTS];
    load_counts(rows, &last, &mut counts);
    let gates = Level::tables();
    let network = Network {
        gates: &gates,
        rows,
        delayed,
        shared,
        drive: contents.drive.listed(),
        horizon,
    };
    let mut carried = Carried {
        present: Present {
            values,
            kept: last,
            counts,
        },
        ahead: Ahead {
            last,
            pending: Pending::empty(),
        },
        next: 0,
    };
    let mut listing = Listing::new(listing);
    ticks(
        network,
        &mut carried,
        contents.watched.listed(),
        &mut listing,
    )
}

// The changes due at a tick: given, and taken from the pending ones.
ghost use Rattle.std.specs.Prelude.{◌≡◌, ◌≤◌, length};
ghost use Rattle.model.specs.Passes.{give_all};
ghost use Rattle.pending.specs.Kept.{arrangement};
ghost use Rattle.tick.specs.Rows.{modules_in};
ghost use Rattle.tick.specs.Rest.{Placed};
ghost use Rattle.tick.specs.Tick.{settled, TalliedIn};

use crate::carried::Present;
use crate::contribution::give;
use crate::fixed::Network;
use pending::{Met, Pending};

// Gives the changes due at tick t, each as what its module contributes from now on. The others stay pending. The loop counts nothing; an iterator
// over those due would be a loop in the pass, which is slower (docs/DECISIONS.md, "Measures").
pub(crate) fn give_due(network: Network, t: u32, pending: &mut Pending, present: &mut Present)
    requires { Placed (length network.rows.now) (arrangement.due pending.old.kept t) × TalliedIn network present.old }
    ensures { (settled network.entry.rows.now present.new
        ≡ give_all (modules_in network.entry.rows.now) (arrangement.due pending.old.kept t) (settled network.entry.rows.now present.old))
        × (pending.new.kept ≡ arrangement.rest pending.old.kept t)
        × (arrangement.count pending.new.kept ≤ arrangement.count pending.old.kept) × TalliedIn network.entry present.new }
{
    let mut scan = pending.from_start();
    loop {
        let met = pending.pass_next(scan, t);
        match met {
            Met::Due(k, value, next) => {
                give(network, k, value, present);
                scan = next;
            }
            Met::Stays(next) => {
                scan = next;
            }
            Met::End => {
                return;
            }
        }
    }
}

// The modules' part of a tick: the drive, the changes due, the modules of delay zero, and what the delayed ones schedule.
#![tactic(auto)]

mod carried;
mod contribution;
mod counts;
mod delayed;
mod due;
mod events;
mod fixed;
mod load;
mod row;
mod zero_delay;

ghost use Rattle.tick.specs.Tick.{Workable, Worked};

pub use crate::carried::{Ahead, Carried, Present};
use crate::delayed::schedule_all;
use crate::due::give_due;
use crate::events::drive_all;
pub use crate::fixed::Network;
pub use crate::load::{drives_alone, load_counts, load_module};
pub use crate::row::{NO_ROW, Row};
use crate::zero_delay::settle_all;
use sheet::NODES;

// The counts of what drivers give, one for each node and value.
pub const COUNTS: usize = 4 * NODES;

// Works the modules at tick t.
pub fn work(network: Network, t: u32, carried: &mut Carried)
    requires { Workable network t carried.old }
    ensures { Worked network.entry t carried.old carried.new }
{
    carried.next = drive_all(network.drive, carried.next, t, &mut carried.present.values);
    give_due(network, t, &mut carried.ahead.pending, &mut carried.present);
    settle_all(network, &mut carried.present);
    schedule_all(network, t, &carried.present, &mut carried.ahead);
}

// The delayed modules: what each comes to now is scheduled, if it differs from what it came to last.
ghost use Rattle.std.specs.Prelude.{◌≡◌, ◌+◌, ◌<◌, ◌≤◌, length};
ghost use Rattle.model.specs.Passes.{schedule_one, schedule};
ghost use Rattle.pending.specs.Kept.{arrangement, pending_room};
ghost use Rattle.tick.specs.Rows.{modules_in};
ghost use Rattle.tick.specs.Tick.{scheduled};

use crate::carried::{Ahead, Present};
use crate::contribution::comes_to;
use crate::fixed::Network;

// Schedules what the module at position k comes to.
fn schedule_one(network: Network, k: usize, t: u32, present: &Present, ahead: &mut Ahead)
    requires { (k < length network.rows.now) × (t < network.horizon) × (arrangement.count ahead.old.pending.kept < pending_room) }
    ensures { (scheduled ahead.new
        ≡ schedule_one arrangement (modules_in network.entry.rows.now) t network.entry.horizon present.now.values (scheduled ahead.old) k)
        × (arrangement.count ahead.new.pending.kept ≤ arrangement.count ahead.old.pending.kept + 1) }
{
    let value = comes_to(network, k, present, ahead.last[k]);
    if value == ahead.last[k] {
        return;
    }
    ahead.last[k] = value;
    let due = t + u32::from(network.rows[k].module.delay);
    if due < network.horizon {
        ahead.pending.put(due, k, value);
    }
}

// Schedules what the delayed modules come to.
pub(crate) fn schedule_all(network: Network, t: u32, present: &Present, ahead: &mut Ahead)
    requires { (t < network.horizon) × (arrangement.count ahead.old.pending.kept + network.delayed ≤ pending_room) }
    ensures { (scheduled ahead.new
        ≡ schedule arrangement (modules_in network.entry.rows.now) t network.entry.horizon present.now.values network.entry.delayed
        (scheduled ahead.old))
        × (arrangement.count ahead.new.pending.kept ≤ arrangement.count ahead.old.pending.kept + network.entry.delayed) }
{
    // By position, since what a module came to last stands at its position too, and a change names it.
    for k in 0..network.delayed {
        schedule_one(network, k, t, present, ahead);
    }
}

// The modules of delay zero, worked in their order over the present values.
ghost use Rattle.std.specs.Prelude.{◌≡◌, ◌-◌, ◌<◌, length};
ghost use Rattle.model.specs.Passes.{settle_one, settle};
ghost use Rattle.tick.specs.Rows.{modules_in};
ghost use Rattle.tick.specs.Tick.{settled, TalliedIn};

use crate::carried::Present;
use crate::contribution::{comes_to, give, given};
use crate::fixed::Network;

// Works the module at position k: it gives what it comes to, holding what it gave last.
fn settle_one(network: Network, k: usize, present: &mut Present)
    requires { (k < length network.rows.now) × TalliedIn network present.old }
    ensures { (settled network.entry.rows.now present.new
        ≡ settle_one (modules_in network.entry.rows.now) (settled network.entry.rows.now present.old) k)
        × TalliedIn network.entry present.new }
{
    let held = given(network, k, &*present);
    let value = comes_to(network, k, &*present, held);
    give(network, k, value, present);
}

// Works the modules behind the delayed ones.
pub(crate) fn settle_all(network: Network, present: &mut Present)
    requires { TalliedIn network present.old }
    ensures { (settled network.entry.rows.now present.new
        ≡ settle (modules_in network.entry.rows.now) network.entry.delayed
        (length network.entry.rows.now - network.entry.delayed) (settled network.entry.rows.now present.old))
        × TalliedIn network.entry present.new }
{
    // By position, since what is kept of a module stands at its position too.
    for k in network.delayed..network.rows.len() {
        settle_one(network, k, present);
    }
}

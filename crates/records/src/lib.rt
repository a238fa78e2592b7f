// The modules' records in working order.
#![tactic(auto)]

ghost use Rattle.std.specs.Prelude.{◌≡◌, ◌≤◌, length, take};
ghost use Rattle.records.specs.Records.{in_order, first_in_order};

use sheet::{MODULES, MOST_MODULES, Module};

// Puts records in an order, as many as there is room for: to each position goes the record whose number the order has there.
// A number is a byte and there are 256 records, so every number has a record. The order goes by index: no proof knows what was written
// through a `zip` with `iter_mut`.
fn put_in_order(to: &mut [Module], from: &[Module; MODULES], order: &[u8])
    requires { length to.old ≤ length order.now }
    ensures { to.new ≡ in_order from.now (take (length to.old) order.now) }
{
    for (k, record) in to.iter_mut().enumerate() {
        *record = from[order[k] as usize];
    }
}

// The first n modules' records in an order, and the rest as they are; a count past the greatest one stands for that. The count stays beside the
// array: `in_working_order` promises its answer for every count, and a `Section` has none above its greatest.
pub fn in_working_order(
    modules: &[Module; MODULES],
    n: u16,
    order: &[u8; MODULES],
) -> [Module; MODULES]
    ensures { result ≡ first_in_order modules.now order.now n }
{
    let mut records = *modules;
    put_in_order(&mut records[..n.min(MOST_MODULES) as usize], modules, order);
    records
}

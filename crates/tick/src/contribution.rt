// What a module comes to, and where it goes.
ghost use Rattle.std.specs.Prelude.{true, false, List, ◌≡◌, ℕ, ◌+◌, ◌<◌, length, get_or};
ghost use Rattle.level.specs.Table.{start_of, tables};
ghost use Rattle.model.specs.Passes.{give, comes_to_now};
ghost use Rattle.tick.specs.Rows.{modules_in, comes_to_over};
ghost use Rattle.tick.specs.Rest.{Known};
ghost use Rattle.tick.specs.Tally.{alone_at, given_at};
ghost use Rattle.tick.specs.Tick.{settled, TalliedIn};

use crate::carried::Present;
use crate::counts::{count_less, count_more, joined_at};
use crate::fixed::Network;
use crate::row::Row;
use level::{CONSTANT, Level};

// The starts that tell kinds apart, as rows keep them.
const START_OF_TWO: u32 = level::START_OF_TWO as u32;

const START_OF_THREE: u32 = level::START_OF_THREE as u32;

const NO_TABLE: u32 = level::NO_TABLE as u32;

// The value of a node.
fn input_at(node: u8, present: &Present) -> u8
    ensures { (result ≡ get_or present.now.values node 0) × (result < 4) }
{
    present.values[usize::from(node)]
}

// An entry of a table, counted from the table's start. It is read in the part from there on, and not at a sum: the start is known before
// the inputs are, so that a chain of gates waits for one load a gate.
fn entry(gates: &[u8], start: u32, i: usize) -> u8
    requires { (gates.now ≡ tables) × (start + i < 488) }
    ensures { result ≡ get_or tables (start + i) 0 }
{
    let row = &gates[start as usize..];
    row[i]
}

// What the module of a row comes to over the present values, holding the value that it came to last.
// Its kind's start tells how many inputs a gate has, and the place of their values in its table is all that is worked out here. The
// second and the third input are looked up for kinds that use them alone. Gates of one input are told apart first, which is faster; a
// kind is read where it has no table.
fn rule(gates: &[u8], row: &Row, present: &Present, held: u8) -> u8
    requires { (gates.now ≡ tables) × Known row.now.module.kind row.now.module.parameter × (held < 4)
        × (row.now.start ≡ start_of row.now.module.kind) }
    ensures { (result ≡ comes_to_over row.now.module present.now.values held) × (result < 4) }
{
    let start = row.start;
    let first = input_at(row.module.first, present);
    if start < START_OF_TWO {
        return entry(gates, start, usize::from(first));
    }
    let second = input_at(row.module.second, present);
    if start < START_OF_THREE {
        let place = 4 * usize::from(first) + usize::from(second);
        return entry(gates, start, place);
    }
    if NO_TABLE <= start {
        if row.module.kind == CONSTANT {
            return Level::constant(row.module.parameter);
        }
        if Level::in_set(row.module.parameter, second) {
            return first;
        }
        return held;
    }
    let third = input_at(row.module.third, present);
    let place = 16 * usize::from(first) + 4 * usize::from(second) + usize::from(third);
    entry(gates, start, place)
}

// What the module at position k comes to over the present values, holding a value. Each that is passed a position asks that there is a row, and each
// that is passed a value that it is 0 to 3: types for a position and a byte would be no plainer.
pub(crate) fn comes_to(network: Network, k: usize, present: &Present, held: u8) -> u8
    requires { (k < length network.rows.now) × (held < 4) }
    ensures { ((last : List ℕ) → get_or last k 0 ≡ held
        → result ≡ comes_to_now (modules_in network.entry.rows.now) present.now.values last k)
        × (result < 4) }
{
    rule(network.gates, &network.rows[k], present, held)
}

// Whether the module at position k drives its node alone. If no node of the sheet has several drivers, its flag is not looked at.
fn alone(network: Network, k: usize) -> bool
    requires { (k < length network.rows.now)
        × (network.shared ≡ false → alone_at network.rows.now k ≡ true) }
    ensures { result ≡ alone_at network.entry.rows.now k }
{
    if network.shared {
        return network.rows[k].alone;
    }
    true
}

// What the module at position k gives at present.
pub(crate) fn given(network: Network, k: usize, present: &Present) -> u8
    requires { (k < length network.rows.now)
        × (network.shared ≡ false → alone_at network.rows.now k ≡ true) }
    ensures { (result ≡ given_at network.entry.rows.now present.now.values present.now.kept k) × (result < 4) }
{
    if alone(network, k) {
        return present.values[usize::from(network.rows[k].module.output)];
    }
    present.kept[k]
}

// What the module at position k contributes reaches its output node here, and nowhere else. A node with one driver takes it as it is; of
// a node with several, the counts tell what they come to together. That these may be relied on, `TalliedIn`, is asked here and by the passes: it ties
// the network to what is present, and so is a fact of neither.
pub(crate) fn give(network: Network, k: usize, value: u8, present: &mut Present)
    requires { (value < 4) × (k < length network.rows.now) × TalliedIn network present.old }
    ensures { (settled network.entry.rows.now present.new
        ≡ give (modules_in network.entry.rows.now) k value (settled network.entry.rows.now present.old))
        × TalliedIn network.entry present.new }
{
    let output = usize::from(network.rows[k].module.output);
    if alone(network, k) {
        present.values[output] = value;
        return;
    }
    let before = present.kept[k];
    count_less(&mut present.counts, output, before);
    count_more(&mut present.counts, output, value);
    present.kept[k] = value;
    present.values[output] = joined_at(&present.counts, output);
}

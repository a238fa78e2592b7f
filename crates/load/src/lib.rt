// What a run begins with, filled once before tick 0 from what a sheet holds.
#![tactic(auto)]

ghost use Rattle.std.specs.Prelude.{true, false, ◌≡◌, ℕ, ◌<◌, ◌≤◌, length, get_or};
ghost use Rattle.sheet.specs.Limits.{most_nodes, input_byte, most_modules};
ghost use Rattle.sheet.specs.Sheet.{Sheet};
ghost use Rattle.model.specs.State.{delayed_below};
ghost use Rattle.model.specs.Passes.{module_in};
ghost use Rattle.tick.specs.Rows.{modules_in};
ghost use Rattle.tick.specs.Rest.{Levels, StartsIn};
ghost use Rattle.tick.specs.Tally.{alone_at, Flagged};
ghost use Rattle.load.specs.First.{first_of};

use level::Level;
use sheet::{INPUT, MODULES, Module, NODES};
use tick::{Row, drives_alone, load_module};

// Puts the modules into their rows, with the starts of their kinds. Answers whether a node has several drivers.
pub fn load_modules(modules: &[Module], rows: &mut [Row]) -> bool
    requires { length rows.old ≡ length modules.now }
    ensures { (modules_in rows.new ≡ modules.now) × Flagged rows.new
        × (result ≡ false → (k : ℕ) → k < length rows.new → alone_at rows.new k ≡ true)
        × StartsIn rows.new }
{
    let mut shared = false;
    for (k, module) in modules.iter().enumerate() {
        let alone = drives_alone(modules, k);
        load_module(*module, alone, k, rows);
        if !alone {
            shared = true;
        }
    }
    shared
}

// How many of the modules are delayed.
pub fn count_delayed(modules: &[Module]) -> usize
    ensures { ((S : Sheet) → S.modules ≡ modules.now → result ≡ delayed_below S (length modules.now)) × (result ≤ length modules.now) }
{
    modules.iter().filter(|m| m.delay != 0).count()
}

// The value of a node before tick 0, by its byte: its initial value, and X for an input.
fn first_value(b: u8) -> u8
    requires { b ≤ input_byte }
    ensures { (result ≡ first_of b) × (result < 4) }
{
    if b == INPUT { Level::UNKNOWN } else { b }
}

// Puts the first values of the nodes into the values. That all are 0 to 3 is asked of the array, here and below: `Present`, whose type says it,
// is built of arrays that are filled.
pub fn load_values(nodes: &[u8], values: &mut [u8; NODES])
    requires { (length nodes.now ≤ most_nodes) × ((v : ℕ) → v < length nodes.now → get_or nodes.now v 0 ≤ input_byte)
        × Levels values.old }
    ensures { ((v : ℕ) → v < length nodes.now → get_or values.new v 0 ≡ first_of (get_or nodes.now v 0))
        × Levels values.new }
{
    for (v, byte) in nodes.iter().enumerate() {
        values[v] = first_value(*byte);
    }
}

// What the modules give, or came to last, is the value of their outputs.
pub fn load_last(modules: &[Module], values: &[u8; NODES], last: &mut [u8; MODULES])
    requires { (length modules.now ≤ most_modules) × Levels values.now × Levels last.old }
    ensures { ((k : ℕ) → k < length modules.now → get_or last.new k 0 ≡ get_or values.now (module_in modules.now k).output 0)
        × Levels last.new }
{
    for (k, module) in modules.iter().enumerate() {
        last[k] = values[usize::from(module.output)];
    }
}

// The rows as they are loaded, once before tick 0, and the counts of what the modules give.
ghost use Rattle.std.specs.Prelude.{true, ◌≡◌, ℕ, ◌<◌, ◌≤◌, length, replicate};
ghost use Rattle.sheet.specs.Limits.{most_nodes, most_modules};
ghost use Rattle.tick.specs.Rows.{ModulePut};
ghost use Rattle.tick.specs.Rest.{Levels};
ghost use Rattle.tick.specs.Tally.{counts_size, CountedAt, DrivesAlone};

use crate::COUNTS;
use crate::counts::count_more;
use crate::row::Row;
use level::Level;
use sheet::{MODULES, Module};

// Whether no other of the modules drives the node of the one at position k.
pub fn drives_alone(modules: &[Module], k: usize) -> bool
    requires { k < length modules.now }
    ensures { result ≡ true → DrivesAlone modules.now k }
{
    for (j, other) in modules.iter().enumerate() {
        if j != k && other.output == modules[k].output {
            return false;
        }
    }
    true
}

// Puts a module's row to position k: its record, where its kind's table begins, and whether it drives its node alone.
pub fn load_module(m: Module, alone: bool, k: usize, rows: &mut [Row])
    requires { k < length rows.old }
    ensures { ModulePut rows.old k m alone rows.new }
{
    let start = u32::from(Level::start(m.kind));
    rows[k] = Row {
        module: m,
        start,
        alone,
    };
}

// Counts what the modules give, node by node, once before tick 0. What they give is an array that is filled for `Present`, whose type says 0 to 3.
pub fn load_counts(rows: &[Row], kept: &[u8; MODULES], counts: &mut [u16; COUNTS])
    requires { (length rows.now ≤ most_modules) × Levels kept.now × (counts.old ≡ replicate counts_size 0) }
    ensures { ((v : ℕ) → v < most_nodes → CountedAt rows.now (length rows.now) kept.now counts.new v)
        × (length counts.new ≡ counts_size) }
{
    for (k, row) in rows.iter().enumerate() {
        count_more(counts, usize::from(row.module.output), kept[k]);
    }
}

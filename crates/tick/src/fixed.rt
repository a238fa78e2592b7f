// What the ticks work on, and leave as it is.
ghost use Rattle.std.specs.Prelude.{◌≡◌, ◌≤◌, length};
ghost use Rattle.level.specs.Table.{tables};
ghost use Rattle.sheet.specs.Limits.{greatest_horizon, most_modules};
ghost use Rattle.tick.specs.Rest.{AllKnown, Driving, StartsIn};
ghost use Rattle.tick.specs.Rows.{modules_in};

use crate::row::Row;
use sheet::Event;

// The gates' tables, the modules' rows in working order, of which the delayed ones stand first, whether a node has several drivers, the
// drive, and the horizon. It is passed by value: behind a reference its parts were read anew for each module.
#[derive(Clone, Copy)]
pub struct Network<'a> {
    pub gates: &'a [u8],
    pub rows: &'a [Row],
    pub delayed: usize,
    pub shared: bool,
    pub drive: &'a [Event],
    pub horizon: u32,
    pub ghost gates_kept: { gates.now ≡ tables },
    pub ghost few: { length rows.now ≤ most_modules },
    pub ghost known: { AllKnown (modules_in rows.now) },
    pub ghost starts_kept: { StartsIn rows.now },
    pub ghost few_delayed: { delayed ≤ length rows.now },
    pub ghost driving: { Driving drive.now },
    pub ghost few_ticks: { horizon ≤ greatest_horizon },
}

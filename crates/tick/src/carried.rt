// What is carried from tick to tick.
ghost use Rattle.tick.specs.Rest.{Levels};

use crate::COUNTS;
use pending::Pending;
use sheet::{MODULES, NODES};

// The nodes' values; and of the modules that share a node what each gives at present, and how many of its drivers give each value.
#[derive(Clone, Copy)]
pub struct Present {
    pub values: [u8; NODES],
    pub kept: [u8; MODULES],
    pub counts: [u16; COUNTS],
    pub ghost values_levels: { Levels values },
    pub ghost kept_levels: { Levels kept },
}

// The value that each delayed module came to last, and the changes that are pending.
#[derive(Clone, Copy)]
pub struct Ahead {
    pub last: [u8; MODULES],
    pub pending: Pending,
    pub ghost last_levels: { Levels last },
}

// These, and the first event that is not before the next tick.
#[derive(Clone, Copy)]
pub struct Carried {
    pub present: Present,
    pub ahead: Ahead,
    pub next: usize,
}

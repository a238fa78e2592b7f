// The four values of a cell, and the gates' rules as constant tables over them.
#![tactic(auto)]

mod tables;

ghost use Rattle.std.specs.Prelude.{◌≡◌, List, [], ◌∷◌, ℕ, ◌%◌, ◌<◌, take};
ghost use Rattle.level.specs.Level.{printed};
ghost use Rattle.level.specs.Gate.{member};
ghost use Rattle.level.specs.Join.{joined_counts};
ghost use Rattle.level.specs.Rule.{inputs_of, comes_to};
ghost use Rattle.level.specs.Kind.{rule_of};
ghost use Rattle.level.specs.Table.{start_of, tables};

use crate::tables::TABLES;

// The last of document 01's kinds, and the last that has a rule; the kinds of a constant and of a memory.
pub const LAST_OF_TWO: u8 = 9;

pub const LAST_KIND: u8 = 15;

pub const CONSTANT: u8 = 0;

pub const MEMORY: u8 = 9;

// The entries of all tables.
pub const TABLE_ENTRIES: usize = 488;

// The tables of one input come first, then those of two, then those of three. From here on a start is that of a gate of two inputs, of
// three, or of a kind without a table: such a kind has the end of all tables for its start.
pub const START_OF_TWO: u16 = 8;

pub const START_OF_THREE: u16 = 104;

pub const NO_TABLE: u16 = 488;

// The start of each kind: where its table begins, after those of the kinds before it. Kinds 0 and 9 have none. Constant tables by kind and by
// the inputs' values are document 01's form, and kinds stay numbers: `start`, `gate` and `inputs` promise an answer for every byte.
const STARTS: [u16; 16] = [
    NO_TABLE, // constant
    0, // buffer
    4, // inverter
    8, // AND
    24, // OR
    40, // XOR
    56, // NAND
    72, // NOR
    88, // clocked inverter
    NO_TABLE, // memory
    104, // AND of three
    168, // OR of three
    232, // XOR of three
    296, // NAND of three
    360, // NOR of three
    424, // multiplexer
];

// The weight of each value in a memory's set.
const WEIGHTS: [u8; 4] = [1, 2, 4, 8];

// The values and what is done with them; a value is a byte, 0 to 3. Constants and functions of a type, without a value of it, are document
// 01's form.
#[derive(Drop)]
pub struct Level {}

impl Level {
    pub const LOW: u8 = 0;

    pub const HIGH: u8 = 1;

    pub const UNKNOWN: u8 = 2;

    pub const NONE: u8 = 3;

    // The byte that prints a value. Only the value's two low bits count. A value is a byte, and no enum with a Display: `printed` is promised for
    // every byte.
    pub fn printed(value: u8) -> u8
        ensures { result ≡ printed (value % 4) }
    {
        match value % 4 {
            Level::LOW => b'0',
            Level::HIGH => b'1',
            Level::UNKNOWN => b'X',
            _ => b'Z',
        }
    }

    // Whether a memory's set has a value. Only the value's two low bits count.
    pub fn in_set(set: u8, value: u8) -> bool
        ensures { result ≡ member set (value % 4) }
    {
        set / WEIGHTS[(value % 4) as usize] % 2 == 1
    }

    // All tables, for a caller that reads many entries: a function that names a constant array builds it anew at each call.
    #[tactic(auto, unfolding(crate::specs::Table::tables))]
    pub fn tables() -> [u8; TABLE_ENTRIES]
        ensures { result ≡ tables }
    {
        TABLES
    }

    // A kind's start: where its table begins, if it has one.
    pub fn start(kind: u8) -> u16
        ensures { result ≡ start_of kind }
    {
        STARTS.get(kind as usize).copied().unwrap_or(NO_TABLE)
    }

    // What the drivers of a node come to together, by how many of them give 0, 1 and X; the others give Z.
    pub fn joined(zeros: u16, ones: u16, unknowns: u16) -> u8
        ensures { (result ≡ joined_counts zeros ones unknowns) × (result < 4) }
    {
        match (zeros > 0, ones > 0, unknowns > 0) {
            (_, _, true) => Level::UNKNOWN,
            (true, true, _) => Level::UNKNOWN,
            (true, false, _) => Level::LOW,
            (false, true, _) => Level::HIGH,
            (false, false, _) => Level::NONE,
        }
    }

    // A constant, kind 0: its parameter, whatever the inputs and the value held.
    pub fn constant(parameter: u8) -> u8
        ensures { (inputs : List ℕ) (held : ℕ) → result ≡ comes_to (rule_of 0 parameter) inputs held }
    {
        parameter
    }

    // What a kind's rule comes to at its inputs' values, with parameter 0 and held value 0. Only the values' two low bits count.
    pub fn gate(kind: u8, first: u8, second: u8, third: u8) -> u8
        ensures { result ≡ comes_to (rule_of kind 0) (take (inputs_of (rule_of kind 0)) (first % 4 ∷ second % 4 ∷ third % 4 ∷ [])) 0 }
    {
        let start = Level::start(kind);
        if start < START_OF_TWO {
            TABLES[start as usize + (first % 4) as usize]
        } else if start < START_OF_THREE {
            TABLES[start as usize + 4 * ((first % 4) as usize) + (second % 4) as usize]
        } else if start < NO_TABLE {
            TABLES[start as usize
                + 16 * ((first % 4) as usize)
                + 4 * ((second % 4) as usize)
                + (third % 4) as usize]
        } else if kind == CONSTANT || kind == MEMORY {
            Level::LOW
        } else {
            Level::UNKNOWN
        }
    }
}

// How many inputs each kind uses, from the first on.
const INPUTS: [u8; 16] = [0, 1, 1, 2, 2, 2, 2, 2, 2, 2, 3, 3, 3, 3, 3, 3];

// How many inputs a kind uses; a kind that no table has uses none.
pub fn inputs(kind: u8) -> u8
    ensures { (parameter : ℕ) → result ≡ inputs_of (rule_of kind parameter) }
{
    INPUTS.get(kind as usize).copied().unwrap_or(0)
}

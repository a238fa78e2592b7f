// A module's row in the network.
use level::NO_TABLE;
use sheet::{Module, NO_MODULE};

// A module's record, where its kind's table begins, and whether it drives its node alone. A start would fit 16 bits: with 32 a row takes
// 16 bytes, and where it stands is a shift.
#[derive(Clone, Copy)]
pub struct Row {
    pub module: Module,
    pub start: u32,
    pub alone: bool,
}

// What stands where no module is put.
pub const NO_ROW: Row = Row {
    module: NO_MODULE,
    start: NO_TABLE as u32,
    alone: true,
};

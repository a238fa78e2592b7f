// What the code holds of a sheet.
ghost use Rattle.std.specs.Prelude.{◌≡◌, ◌≤◌, take};

use crate::{EVENTS, Event, MODULES, Module, NODES, WATCHED};

// A section's records in an array of its greatest count: so many of them are read, and past those stand blanks.
#[derive(Drop)]
pub struct Section<T: Drop, const N: usize> {
    pub count: u16,
    pub records: [T; N],
    ghost few: { count ≤ N },
}

impl<T: Drop, const N: usize> Section<T, N> {
    // The records that are read.
    pub fn listed(&self) -> &[T]
        ensures { result.now ≡ take self.now.count self.now.records }
    {
        &self.records[..self.count as usize]
    }
}

// What a sheet holds: its four sections.
#[derive(Drop)]
pub struct Contents {
    pub nodes: Section<u8, NODES>,
    pub modules: Section<Module, MODULES>,
    pub drive: Section<Event, EVENTS>,
    pub watched: Section<u8, WATCHED>,
}

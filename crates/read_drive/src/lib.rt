// The drive of a sheet, each event read once, and then the inputs' first events.
#![tactic(auto)]

mod drive;
mod event;
mod first_events;

pub use drive::drive_section;

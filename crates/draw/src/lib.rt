// Numbers that are drawn from a seed, and the section of a drive that is made of them.
#![tactic(auto)]

mod drawing;
mod putting;

pub use putting::put_drive;

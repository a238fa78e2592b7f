// The modules' section of a sheet: its records, each read once, and the refusals met in it and at the nodes' bytes after it.
#![tactic(auto)]

mod node_bytes;
mod record;
mod section;

pub use section::{ModulesRead, modules_section};

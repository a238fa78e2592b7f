// The nodes and the watched nodes of a sheet, each record read once, and what every section begins with: its count.
#![tactic(auto)]

mod count;
mod nodes;
mod watched;

pub use count::count_refusal;
pub use nodes::nodes_section;
pub use watched::watched_section;

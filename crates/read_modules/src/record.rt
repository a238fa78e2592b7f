// The refusals met in a module's record that was read whole.
ghost use Rattle.std.specs.Prelude.{◌≡◌, leb, ltb, if◌then◌else◌};
ghost use Rattle.sheet.specs.Refusal.{first, greatest_parameter, miswired};
ghost use Rattle.sheet.specs.Told.{refusal_in};
ghost use Rattle.read_modules.specs.Record.{record_rows};

use level::{CONSTANT, MEMORY};
use sheet::{LAST_VALUE, LONGEST_DELAY, Module, Refusal};

// The greatest parameter that a kind allows. A kind stays a byte here, since `record_rows` tries any that stands in a record.
fn greatest_parameter(kind: u8) -> u8
    ensures { result ≡ greatest_parameter kind }
{
    match kind {
        CONSTANT => LAST_VALUE,
        MEMORY => 15,
        _ => 0,
    }
}

// Whether an input is wrong: used and no node, or unused and not 0.
fn wrong_input(used: bool, node: u8, nodes: u16) -> bool
    ensures { result ≡ (if used then leb nodes node else ltb 0 node) }
{
    if used { nodes <= node as u16 } else { 0 < node }
}

// Whether a module's nodes are wrong.
fn wrong_nodes(m: Module, nodes: u16) -> bool
    ensures { result ≡ miswired nodes m }
{
    let n = level::inputs(m.kind);
    nodes <= m.output as u16
        || wrong_input(0 < n, m.first, nodes)
        || wrong_input(1 < n, m.second, nodes)
        || wrong_input(2 < n, m.third, nodes)
}

// The refusal met in a record that stands at a place.
#[tactic(auto, unfolding(sheet::specs::Refusal::first))]
pub(crate) fn record_refusal(m: Module, at: u32, greatest: u8, nodes: u16) -> Result<(), Refusal>
    ensures { refusal_in result ≡ first (record_rows greatest nodes at m) }
{
    if greatest < m.kind {
        return Err(Refusal::Kind(at));
    }
    if greatest_parameter(m.kind) < m.parameter {
        return Err(Refusal::Parameter(at));
    }
    if wrong_nodes(m, nodes) {
        return Err(Refusal::Wiring(at));
    }
    if LONGEST_DELAY < m.delay {
        return Err(Refusal::Delay(at));
    }
    Ok(())
}

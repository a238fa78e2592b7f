// The nodes' section.
ghost use Rattle.std.specs.Prelude.{◌≡◌};
ghost use Rattle.sheet.specs.Layout.{nodes_counted, node_at};
ghost use Rattle.sheet.specs.Refusal.{nodes_section};
ghost use Rattle.sheet.specs.Sections.{SectionRead};
ghost use Rattle.sheet.specs.Told.{Told};
ghost use Rattle.read_nodes.specs.Told.{NodeTold};

use crate::count::count_refusal;
use sheet::{COUNT_SIZE, INPUT, LEAST_NODES, MOST_NODES, NODES, Refusal, Section};

// The node's byte at a place.
#[tactic(auto, unfolding(sheet::specs::Refusal::first))]
fn node_checked(s: &[u8], at: u32) -> Result<u8, Refusal>
    ensures { NodeTold s.now at result }
{
    let Some(b) = sheet::node_at(s, at) else {
        return Err(Refusal::BytesEnd(at));
    };
    if INPUT < b {
        return Err(Refusal::NodeByte(at));
    }
    Ok(b)
}

// The section, which stands first.
pub fn nodes_section(s: &[u8], place: u32) -> Result<Section<u8, NODES>, Refusal>
    requires { place ≡ 0 }
    ensures { Told (nodes_section s.now) (SectionRead 0 (nodes_counted s.now) (node_at s.now)) result }
{
    let count = count_refusal(s, place, LEAST_NODES, MOST_NODES)?;
    let start = place + COUNT_SIZE;
    let mut records = [0; NODES];
    for v in 0..count {
        records[v as usize] = node_checked(s, start + (v as u32))?;
    }
    Ok(Section { count, records })
}

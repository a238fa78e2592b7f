// The watched nodes' section.
ghost use Rattle.std.specs.Prelude.{◌≡◌, ◌≤◌};
ghost use Rattle.sheet.specs.Layout.{nodes_counted, watched_place, watched_counted, watched_at};
ghost use Rattle.sheet.specs.Sections.{rows_of_watched, SectionRead};
ghost use Rattle.sheet.specs.Told.{Told};
ghost use Rattle.read_nodes.specs.Told.{WatchedTold};

use crate::count::count_refusal;
use sheet::{COUNT_SIZE, Edition, MOST_WATCHED, Refusal, Section, WATCHED};

// The watched node at a place, which is to be at least a number: above the one before.
#[tactic(auto, unfolding(sheet::specs::Refusal::first, sheet::specs::Refusal::not_above_watched))]
fn watched_checked(s: &[u8], at: u32, nodes: u16, least: u16) -> Result<u8, Refusal>
    ensures { WatchedTold s.now at nodes least result }
{
    let Some(v) = sheet::node_at(s, at) else {
        return Err(Refusal::BytesEnd(at));
    };
    if nodes <= v as u16 || (v as u16) < least {
        return Err(Refusal::Watched(at));
    }
    Ok(v)
}

// The section, which stands at a place, and the bytes left over after it. Its loop is no twin of the nodes': from node to node it carries the
// least that the next may be. One function over a closure would be no plainer than two loops of `?`.
pub fn watched_section(
    e: Edition,
    s: &[u8],
    place: u32,
    nodes: u16,
) -> Result<Section<u8, WATCHED>, Refusal>
    requires { (place ≡ watched_place e s.now) × (place ≤ 100000) × (nodes ≡ nodes_counted s.now) }
    ensures { Told (rows_of_watched e s.now) (SectionRead 0 (watched_counted e s.now) (watched_at e s.now)) result }
{
    let count = count_refusal(s, place, 0, MOST_WATCHED)?;
    let start = place + COUNT_SIZE;
    let mut records = [0; WATCHED];
    let mut least: u16 = 0;
    for k in 0..count {
        let v = watched_checked(s, start + (k as u32), nodes, least)?;
        records[k as usize] = v;
        least = (v as u16) + 1;
    }
    let end = start + (count as u32);
    if (end as usize) < s.len() {
        return Err(Refusal::BytesLeft(end));
    }
    Ok(Section { count, records })
}

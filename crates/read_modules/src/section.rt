// The modules' section.
ghost use Rattle.std.specs.Prelude.{◌≡◌, ◌≤◌};
ghost use Rattle.sheet.specs.Layout.{nodes_counted, node_at, modules_place};
ghost use Rattle.sheet.specs.Limits.{most_nodes};
ghost use Rattle.sheet.specs.Refusal.{modules_section};
ghost use Rattle.sheet.specs.Sections.{SectionRead, rows_of_modules};
ghost use Rattle.sheet.specs.Told.{Told};
ghost use Rattle.read_modules.specs.Read.{ModulesKnown};

use crate::node_bytes::first_byte_refusal;
use crate::record::record_refusal;
use read_nodes::count_refusal;
use sheet::{
    COUNT_SIZE, Edition, MODULES, MOST_MODULES, Module, NO_MODULE, NODES, Refusal, Section,
};

// What reading the section gives.
#[derive(Drop)]
pub struct ModulesRead {
    pub modules: Section<Module, MODULES>,
    // Whether a module drives a node.
    pub driven: [bool; NODES],
    // The place after the section.
    pub end: u32,
}

// Reads the section, which stands at a place: its count, and then its records.
fn module_records(e: Edition, s: &[u8], place: u32, nodes: u16) -> Result<ModulesRead, Refusal>
    requires { (place ≡ modules_place s.now) × (nodes ≡ nodes_counted s.now) × (nodes ≤ most_nodes) }
    ensures { Told (modules_section e s.now) (ModulesKnown e s.now) result }
{
    let count = count_refusal(s, place, 0, MOST_MODULES)?;
    let mut records = [NO_MODULE; MODULES];
    let mut driven = [false; NODES];
    // Where the next record stands.
    let mut at = place + COUNT_SIZE;
    for record in &mut records[..count as usize] {
        let Some(r) = sheet::module_at(e, s, at) else {
            return Err(Refusal::BytesEnd(at));
        };
        record_refusal(r, at, e.greatest, nodes)?;
        *record = r;
        driven[r.output as usize] = true;
        at += e.size as u32;
    }
    Ok(ModulesRead {
        modules: Section { count, records },
        driven,
        end: at,
    })
}

// Reads the section, which stands at a place, and then tries the nodes' bytes.
pub fn modules_section(
    e: Edition,
    s: &[u8],
    place: u32,
    nodes: &Section<u8, NODES>,
) -> Result<ModulesRead, Refusal>
    requires { (place ≡ modules_place s.now) × SectionRead 0 (nodes_counted s.now) (node_at s.now) nodes.now }
    ensures { Told (rows_of_modules e s.now) (ModulesKnown e s.now) result }
{
    let read = module_records(e, s, place, nodes.count)?;
    first_byte_refusal(nodes.listed(), &read.driven)?;
    Ok(read)
}

// The drive's section.
ghost use Rattle.std.specs.Prelude.{◌≡◌, ◌≤◌};
ghost use Rattle.sheet.specs.Flags.{Flags};
ghost use Rattle.sheet.specs.Layout.{nodes_counted, drive_place, events_counted, event_at, sheet_of};
ghost use Rattle.sheet.specs.Limits.{most_nodes};
ghost use Rattle.sheet.specs.Sections.{rows_of_drive, SectionRead};
ghost use Rattle.sheet.specs.Sheet.{no_event};
ghost use Rattle.sheet.specs.Told.{Told};
ghost use Rattle.sheet.specs.Wiring.{is_driven};

use crate::event::event_checked;
use crate::first_events::{first_events, mark};
use read_nodes::count_refusal;
use sheet::{COUNT_SIZE, EVENT_SIZE, EVENTS, Edition, Event, MOST_EVENTS, NODES, Refusal, Section};

// The section, which stands at a place, and after it, in a strict check, the inputs' first events.
// The nodes' count and the flags come as two: that they are the sheet's is a fact about the bytes too, which a type of the two could not state.
pub fn drive_section(
    strict: bool,
    e: Edition,
    s: &[u8],
    place: u32,
    nodes: u16,
    driven: &[bool; NODES],
) -> Result<Section<Event, EVENTS>, Refusal>
    requires { (place ≡ drive_place e s.now) × (place ≤ 100000) × (nodes ≡ nodes_counted s.now) × (nodes ≤ most_nodes)
        × Flags driven.now (is_driven (sheet_of e s.now)) }
    ensures { Told (rows_of_drive strict e s.now) (SectionRead no_event (events_counted e s.now) (event_at e s.now)) result }
{
    let count = count_refusal(s, place, 0, MOST_EVENTS)?;
    let start = place + COUNT_SIZE;
    let mut records = [sheet::NO_EVENT; EVENTS];
    let mut begun = *driven;
    let mut before = None;
    for k in 0..count {
        let event = event_checked(s, start + EVENT_SIZE * (k as u32), nodes, driven, before)?;
        records[k as usize] = event;
        mark(event, &mut begun);
        before = Some(event);
    }
    first_events(strict, nodes, &begun)?;
    Ok(Section { count, records })
}

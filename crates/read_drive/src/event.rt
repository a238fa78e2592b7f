// One event of the drive.
ghost use Rattle.std.specs.Prelude.{◌≡◌};
ghost use Rattle.sheet.specs.Flags.{Flags};
ghost use Rattle.sheet.specs.Sheet.{Sheet, node_count};
ghost use Rattle.sheet.specs.Wiring.{is_driven, is_input};
ghost use Rattle.read_drive.specs.Told.{EventTold, is_not_above};

use sheet::{Event, LAST_TICK, LAST_VALUE, NODES, Refusal};

// An event's place in the order of the drive: by tick, then by node.
fn order_key(event: Event) -> (u32, u8)
    ensures { result ≡ (event.tick, event.node) }
{
    (event.tick, event.node)
}

// Whether an event is not above the one before, if there is one.
fn is_not_above(event: Event, before: Option<Event>) -> bool
    ensures { result ≡ is_not_above event before }
{
    before.is_some_and(|last| order_key(event) <= order_key(last))
}

// Whether a byte is a node that no module drives.
fn is_input(v: u8, nodes: u16, driven: &[bool; NODES]) -> bool
    ensures { (S : Sheet) → nodes ≡ node_count S → Flags driven.now (is_driven S) → result ≡ is_input S v }
{
    (v as u16) < nodes && !driven[v as usize]
}

// The event at a place, which is to be above the one before.
#[tactic(auto, using(sheet::proofs::Parts::counts_nodes), unfolding(sheet::specs::Refusal::first, sheet::specs::Refusal::not_above_event))]
pub(crate) fn event_checked(
    s: &[u8],
    at: u32,
    nodes: u16,
    driven: &[bool; NODES],
    before: Option<Event>,
) -> Result<Event, Refusal>
    ensures { EventTold s.now at nodes driven.now before result }
{
    let Some(event) = sheet::event_at(s, at) else {
        return Err(Refusal::BytesEnd(at));
    };
    if LAST_TICK < event.tick {
        return Err(Refusal::EventTick(at));
    }
    if !is_input(event.node, nodes, driven) {
        return Err(Refusal::EventNode(at));
    }
    if LAST_VALUE < event.value {
        return Err(Refusal::EventValue(at));
    }
    if is_not_above(event, before) {
        return Err(Refusal::EventOrder(at));
    }
    Ok(event)
}

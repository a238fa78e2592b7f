// The inputs' first events, which a strict check asks for. A node has begun if a module drives it or it has an event at tick 0.
ghost use Rattle.std.specs.Prelude.{not, ◌≡◌, ◌≤◌, position};
ghost use Rattle.sheet.specs.Limits.{most_nodes};
ghost use Rattle.sheet.specs.Refusal.{first};
ghost use Rattle.sheet.specs.Told.{refusal_in};
ghost use Rattle.read_drive.specs.Begun.{begun_by, unbegun_section};

use sheet::{Event, NODES, Refusal};

// Flags the event's node if its tick is 0.
pub(crate) fn mark(event: Event, begun: &mut [bool; NODES])
    ensures { begun.new ≡ begun_by event begun.old }
{
    if event.tick == 0 {
        begun[event.node as usize] = true;
    }
}

// The first node that has not begun.
fn first_unbegun(begun: &[bool]) -> Option<usize>
    ensures { result ≡ position not begun.now }
{
    begun.iter().position(|has| !*has)
}

// The first refusal met, in a strict check, at a node that has not begun.
#[tactic(auto, using(crate::proofs::Begun::unbegun_node, crate::proofs::Begun::all_begun), unfolding(sheet::specs::Refusal::first))]
pub(crate) fn first_events(strict: bool, nodes: u16, begun: &[bool; NODES]) -> Result<(), Refusal>
    requires { nodes ≤ most_nodes }
    ensures { refusal_in result ≡ first (unbegun_section strict nodes begun.now) }
{
    if !strict {
        return Ok(());
    }
    match first_unbegun(&begun[..nodes as usize]) {
        Some(node) => Err(Refusal::NotBegun(node as u32)),
        None => Ok(()),
    }
}

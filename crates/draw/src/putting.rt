// The drawn drive's section, put into a lent output.
ghost use Rattle.std.specs.Prelude.{◌≡◌, ℕ, ◌+◌, ◌<◌, ◌≤◌, length};
ghost use Rattle.sheet.specs.Enumerate.{listed};
ghost use Rattle.format.specs.Encode.{event_bytes, all_bytes};
ghost use Rattle.lent.specs.Lent.{Puts};
ghost use Rattle.draw.specs.Draw.{state_after};
ghost use Rattle.draw.specs.Drive.{first_event, later_event, drawn_drive, drive_bytes};

use crate::drawing::Draws;
use lent::Writer;
use sheet::Event;

// Puts an event: tick, input node, value.
fn put_event(out: &mut Writer, event: Event)
    ensures { Puts (event_bytes event) out.old out.new }
{
    out.put_all(&event.tick.to_le_bytes());
    out.put(event.node);
    out.put(event.value);
}

// Puts an event at tick 0 for each input, its value drawn.
fn put_first(out: &mut Writer, inputs: &[u8], draws: &mut Draws)
    ensures state { draws.new.state ≡ state_after draws.old.state (length inputs.now) }
    ensures puts { Puts (all_bytes event_bytes (listed (length inputs.now) (first_event inputs.now draws.old.state))) out.old out.new }
{
    for input in inputs {
        put_event(out, draws.first_event(*input));
    }
}

// Puts n events that are drawn, after the first ones.
fn put_later(out: &mut Writer, inputs: &[u8], draws: &mut Draws, n: u32)
    requires { (n ≤ 1024) × (0 < n → 0 < length inputs.now) }
    ensures { (seed : ℕ) → draws.old.state ≡ state_after seed (length inputs.now)
        → Puts (all_bytes event_bytes (listed n (later_event inputs.now seed))) out.old out.new }
{
    let mut tick: u32 = 0;
    for _ in 0..n {
        let event = draws.later_event(inputs, tick);
        put_event(out, event);
        tick = event.tick;
    }
}

// Puts the drive's section: the count of its events, and the events. That they fit a drive is asked, and is no fact of a type that holds inputs and
// count: of a load it is true only once 26 is past.
pub fn put_drive(out: &mut Writer, inputs: &[u8], seed: u32, n: u32)
    requires { (length inputs.now + n ≤ 1024) × (0 < n → 0 < length inputs.now) }
    ensures { Puts (drive_bytes (drawn_drive inputs.now seed n)) out.old out.new }
{
    let events = inputs.len() + (n as usize);
    out.put_all(&(events as u16).to_le_bytes());
    let mut draws = Draws { state: seed };
    put_first(out, inputs, &mut draws);
    put_later(out, inputs, &mut draws, n);
}

// Draws: a state that grows by one step for each, and what is drawn from it.
ghost use Rattle.std.specs.Prelude.{◌≡◌, ◌+◌, ◌%◌, ◌<◌, ◌≤◌, length, slice_index};
ghost use Rattle.draw.specs.Draw.{advanced, result_of};

use sheet::Event;

// What a draw adds to the state.
const DRAW_STEP: u32 = 2654435769;

// The result of the draw that has left a state: the upper half and the lower half, exclusive-or.
fn result_of(state: u32) -> u32
    ensures { result ≡ result_of state }
{
    (state / 65536) ^ (state % 65536)
}

// The draws from a seed on: the state that the last of them has left, and the seed before the first.
#[derive(Drop)]
pub(crate) struct Draws {
    pub state: u32,
}

impl Draws {
    // The result of the next draw. The state's sum wraps around.
    fn next(&mut self) -> u32
        ensures state { self.new.state ≡ advanced self.old.state }
        ensures drawn { result ≡ result_of (advanced self.old.state) }
    {
        self.state = self.state.wrapping_add(DRAW_STEP);
        result_of(self.state)
    }

    // Draws the event of an input at tick 0: its value.
    pub(crate) fn first_event(&mut self, input: u8) -> Event
        ensures state { self.new.state ≡ advanced self.old.state }
        ensures drawn { result ≡ record { tick = 0; node = input; value = result_of (advanced self.old.state) % 2 } }
    {
        Event {
            tick: 0,
            node: input,
            value: (self.next() % 2) as u8,
        }
    }

    // Draws an event after a tick: how far off it is, then its input, then its value.
    pub(crate) fn later_event(&mut self, inputs: &[u8], before: u32) -> Event
        requires { (0 < length inputs.now) × (before ≤ 65536) }
        ensures state { self.new.state ≡ advanced (advanced (advanced self.old.state)) }
        ensures drawn { result ≡ record {
          tick = before + (1 + result_of (advanced self.old.state) % 64);
          node = slice_index inputs.now (result_of (advanced (advanced self.old.state)) % length inputs.now);
          value = result_of (advanced (advanced (advanced self.old.state))) % 2;
        } }
    {
        let first = self.next();
        let second = self.next();
        let third = self.next();
        let position = (second as usize) % inputs.len();
        Event {
            tick: before + (1 + first % 64),
            node: inputs[position],
            value: (third % 2) as u8,
        }
    }
}

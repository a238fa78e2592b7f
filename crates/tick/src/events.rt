// The drive's events of a tick.
ghost use Rattle.std.specs.Prelude.{◌≡◌, suc};
ghost use Rattle.model.specs.Drive.{next_event, drive_tick};
ghost use Rattle.tick.specs.Rest.{Levels, Driving};

use sheet::{Event, NODES};

// Puts the events of tick t into the values, from the first event that is not before it.
// Answers the first event that is not before the next tick. The values are lent out of `Present`, whose type says that all are 0 to 3.
pub(crate) fn drive_all(drive: &[Event], next: usize, t: u32, values: &mut [u8; NODES]) -> usize
    requires { Driving drive.now × (next ≡ next_event drive.now t) × Levels values.old }
    ensures { (result ≡ next_event drive.now (suc t)) × (values.new ≡ drive_tick drive.now t values.old)
        × Levels values.new }
{
    let rest = &drive[next..];
    for (i, event) in rest.iter().enumerate() {
        if event.tick != t {
            return next + i;
        }
        values[usize::from(event.node)] = event.value;
    }
    drive.len()
}

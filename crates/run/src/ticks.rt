// The ticks in turn, until one is refused or the horizon is reached. Values that still last end at the tick that 19 refuses, at the tick
// after the one that 20 refuses, or at the horizon.
ghost use Rattle.std.specs.Prelude.{◌≡◌, length};
ghost use Rattle.sheet.specs.Sheet.{Sheet};
ghost use Rattle.sheet.specs.Told.{answer_in};
ghost use Rattle.network.specs.Run.{ran_sheet, Leaves};
ghost use Rattle.run.specs.Ready.{Ready};

use listing::{Listing, Stop};
use sheet::Refusal;
use tick::{Carried, Network, work};

// The ticks of a sheet that all is ready for.
pub(crate) fn ticks(
    network: Network,
    carried: &mut Carried,
    watched: &[u8],
    listing: &mut Listing,
) -> Result<u32, Refusal>
    ghost sheet: { Sheet }
    requires { Ready sheet network carried.old watched.now listing.old }
    ensures run { Leaves (ran_sheet sheet network.entry.horizon (length listing.old.bytes.now)) listing.old.bytes.now (answer_in result)
        listing.new.bytes.now }
    ensures lent { listing.new.bytes.ghost_name ≡ listing.old.bytes.ghost_name }
{
    for t in 0..network.horizon {
        work(network, t, carried);
        let due = carried.ahead.pending.count();
        match listing.list(t, watched, &carried.present.values, due) {
            Ok(()) => {}
            Err(Stop::Full) => {
                listing.end_all(watched, t);
                return Err(Refusal::ListingFull(t, listing.written as u32));
            }
            Err(Stop::Crowded) => {
                let after = t + 1;
                listing.end_all(watched, after);
                return Err(Refusal::TooManyPending(t, listing.written as u32));
            }
        }
    }
    listing.end_all(watched, network.horizon);
    Ok(listing.written as u32)
}

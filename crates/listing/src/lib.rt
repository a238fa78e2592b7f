// The listing's part of a tick: 19 before any record is written, 20 after they are.
#![tactic(auto)]

mod ends;
mod fresh;
mod record;

ghost use Rattle.std.specs.Prelude.{List, ◌≡◌, ℕ, ◌+◌, ◌*◌, ◌≤◌, length, replicate};
ghost use Rattle.sheet.specs.Limits.{most_nodes};
ghost use Rattle.network.specs.Listing.{Record};
ghost use Rattle.network.specs.Buffer.{record_size};
ghost use Rattle.model.specs.Fresh.{not_shown, fresh};
ghost use Rattle.listing.specs.Ends.{Holding, Held};
ghost use Rattle.listing.specs.Step.{StepOf, RecordsWritten};

use record::RECORD_SIZE;
pub use record::{Listed, record_at, write_long};
use sheet::{NODES, PENDING_LIMIT};

// No value is shown before the first tick; this is none. A byte and no Option, since `not_shown`, `fresh` and `show_all` of crate model
// speak of it.
pub const NOT_SHOWN: u8 = 255;

// The bytes that are lent for the listing, how many records are written into them, and of each node the value shown last and the number of
// its last record. The last two are two arrays, since `fresh` and `show_all` speak of the values alone. `Held` is asked by the methods and
// is no ghost field: it holds no more after `end_all`, and who lists a tick needs `Holding` of a buffer and records of its own.
#[derive(Drop)]
pub struct Listing<'a> {
    pub bytes: &'a mut [u8],
    pub written: usize,
    pub values: [u8; NODES],
    pub places: [Option<usize>; NODES],
}

// Why no tick follows: no room for a tick's records, or they are written but too many changes are pending. These are refusals 19 and 20,
// which name the count of records in 32 bits: that it fits follows from the horizon, which only the run knows.
#[derive(Clone, Copy, PartialEq, Eq)]
pub enum Stop {
    Full,
    Crowded,
}

impl<'a> Listing<'a> {
    // Before the first tick.
    pub fn new(bytes: &'a mut [u8]) -> Listing<'a>
        ensures lent { result.bytes.ghost_name ≡ bytes.entry.ghost_name }
        ensures as_it_was { result.bytes.now ≡ bytes.old }
        ensures none_written { result.written ≡ 0 }
        ensures none_shown { result.values ≡ replicate most_nodes not_shown }
        ensures none_placed { result.places ≡ replicate most_nodes None }
    {
        Listing {
            bytes,
            written: 0,
            values: [NOT_SHOWN; NODES],
            places: [None; NODES],
        }
    }
}

impl Listing<'_> {
    // Writes the records of tick t, so many of them, and shows the values. A tick without records leaves all as it is.
    #[tactic(auto, using(crate::proofs::FreshLists::shown_length))]
    fn write(&mut self, t: u32, watched: &[u8], values: &[u8; NODES], records: usize)
        requires counted { records ≡ length (fresh t values.now self.old.values watched.now) }
        requires room { record_size * (self.old.written + records) ≤ length self.old.bytes.now }
        requires held { Held self.old }
        ensures told { (buffer : List ℕ) (before : List Record) → Holding buffer before self.old
            → RecordsWritten buffer before self.old t watched.now values.now self.new }
        ensures lent { self.new.bytes.ghost_name ≡ self.old.bytes.ghost_name }
    {
        if records == 0 {
            return;
        }
        self.write_fresh(t, watched, values);
        self.show_all(watched, values);
    }

    // Lists tick t. So many changes are pending after the tick.
    #[tactic(auto, using(crate::proofs::Holding::holding_length))]
    pub fn list(
        &mut self,
        t: u32,
        watched: &[u8],
        values: &[u8; NODES],
        pending: usize,
    ) -> Result<(), Stop>
        requires { Held self.old }
        ensures told { (buffer : List ℕ) (before : List Record) → Holding buffer before self.old
            → StepOf buffer before self.old t watched.now values.now pending result self.new }
        ensures lent { self.new.bytes.ghost_name ≡ self.old.bytes.ghost_name }
    {
        let records = self.count_fresh(watched, values);
        let room = self.bytes.len() / RECORD_SIZE;
        if room - self.written < records {
            return Err(Stop::Full);
        }
        self.write(t, watched, values, records);
        if PENDING_LIMIT < pending {
            return Err(Stop::Crowded);
        }
        Ok(())
    }
}

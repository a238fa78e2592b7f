// The ends of values. A record is written with end 0; the next record of its node puts it right, and once the ticks are done the values
// that still last are ended.
ghost use Rattle.std.specs.Prelude.{List, [], ◌∷◌, ◌++◌, ◌≡◌, ℕ, ◌+◌, ◌*◌, ◌≤◌, length, IfSome};
ghost use Rattle.network.specs.Listing.{Record};
ghost use Rattle.network.specs.Buffer.{record_size, buffer_after};
ghost use Rattle.listing.specs.Ends.{with_ends, end_at, Last, ends_for, Holding, Held};

use crate::Listing;
use crate::record::{Listed, write_end, write_record};

// A node's last record, if it has one, ends at a tick.
#[tactic(auto, using(crate::proofs::Holding::none_put, crate::proofs::Holding::end_put))]
fn end_last(listing: &mut [u8], last: Option<usize>, end: u32)
    requires { IfSome last (λ n. record_size * (n + 1) ≤ length listing.old) }
    ensures { (buffer : List ℕ) (ends : ℕ → ℕ) (records : List Record) (v : ℕ) → record_size * length records ≤ length buffer
        → listing.old ≡ buffer_after (with_ends ends records) buffer → Last v records last
        → listing.new ≡ buffer_after (with_ends (end_at v end ends) records) buffer }
{
    if let Some(n) = last {
        write_end(listing, n, end);
    }
}

impl Listing<'_> {
    // Writes a node's new value at tick t, where the value before it ends.
    pub(crate) fn write_value(&mut self, t: u32, node: u8, value: u8)
        requires room { record_size * (self.old.written + 1) ≤ length self.old.bytes.now }
        requires held { Held self.old }
        ensures holding { (buffer : List ℕ) (records : List Record) → Holding buffer records self.old
            → Holding buffer (records ++ record { tick = t; node = node; value = value } ∷ []) self.new }
        ensures same_values { self.new.values ≡ self.old.values }
        ensures lent { self.new.bytes.ghost_name ≡ self.old.bytes.ghost_name }
    {
        let v = usize::from(node);
        let n = self.written;
        let last = self.places[v];
        end_last(self.bytes, last, t);
        let listed = Listed {
            tick: t,
            node,
            value,
            end: 0,
        };
        write_record(self.bytes, n, listed);
        self.places[v] = Some(n);
        self.written = n + 1;
    }

    // The values that the watched nodes still have end at a tick. The count of records is not looked at: it may be any.
    pub fn end_all(&mut self, watched: &[u8], end: u32)
        requires { (n : ℕ) × Held (record self.old { written = n }) }
        ensures ended { (buffer : List ℕ) (records : List Record) (n : ℕ) → Holding buffer records (record self.old { written = n })
            → self.new.bytes.now ≡ buffer_after (with_ends (ends_for watched.now end (length watched.now)) records) buffer }
        ensures rest { self.new ≡ record self.old { bytes = self.new.bytes } }
        ensures lent { self.new.bytes.ghost_name ≡ self.old.bytes.ghost_name }
    {
        for &node in watched {
            let last = self.places[usize::from(node)];
            end_last(self.bytes, last, end);
        }
    }
}

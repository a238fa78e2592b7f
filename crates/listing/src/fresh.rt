// The records of a tick: counted first, and then written.
ghost use Rattle.std.specs.Prelude.{List, ◌++◌, ◌≡◌, ℕ, ◌+◌, ◌*◌, ◌≤◌, not, ◌==◌, length, slice_index};
ghost use Rattle.network.specs.Listing.{Record};
ghost use Rattle.network.specs.Buffer.{record_size};
ghost use Rattle.model.specs.Fresh.{fresh, show_all};
ghost use Rattle.listing.specs.Ends.{Holding, Held};

use crate::Listing;
use sheet::NODES;

impl Listing<'_> {
    // Whether a node's value is not the one shown last.
    fn is_fresh(&self, values: &[u8; NODES], node: u8) -> bool
        ensures { result ≡ not (slice_index values.now node == slice_index self.now.values node) }
    {
        let v = usize::from(node);
        values[v] != self.values[v]
    }

    // How many of the watched nodes have a value that is not the one shown last. A sum, since `filter(..).count()` branches at each node:
    // it was measured eight times as slow where half of the values change.
    #[tactic(auto, using(crate::proofs::FreshLists::fresh_counted))]
    pub(crate) fn count_fresh(&self, watched: &[u8], values: &[u8; NODES]) -> usize
        ensures { (t : ℕ) → result ≡ length (fresh t values.now self.now.values watched.now) }
    {
        watched
            .iter()
            .map(|node| usize::from(self.is_fresh(values, *node)))
            .sum()
    }

    // Writes the records of tick t.
    #[tactic(auto, unfolding(model::specs::Fresh::fresh))]
    pub(crate) fn write_fresh(&mut self, t: u32, watched: &[u8], values: &[u8; NODES])
        requires room { record_size * (self.old.written + length (fresh t values.now self.old.values watched.now)) ≤ length self.old.bytes.now }
        requires held { Held self.old }
        ensures holding { (buffer : List ℕ) (before : List Record) → Holding buffer before self.old
            → Holding buffer (before ++ fresh t values.now self.old.values watched.now) self.new }
        ensures same_values { self.new.values ≡ self.old.values }
        ensures lent { self.new.bytes.ghost_name ≡ self.old.bytes.ghost_name }
    {
        for &node in watched {
            if self.is_fresh(values, node) {
                self.write_value(t, node, values[usize::from(node)]);
            }
        }
    }

    // The values of the watched nodes are now shown.
    #[tactic(auto, using(crate::proofs::FreshLists::shown_next), unfolding(model::specs::Fresh::show_all))]
    pub(crate) fn show_all(&mut self, watched: &[u8], values: &[u8; NODES])
        ensures { self.new ≡ record self.old { values = show_all values.now self.old.values watched.now } }
    {
        for &node in watched {
            let v = usize::from(node);
            self.values[v] = values[v];
        }
    }
}

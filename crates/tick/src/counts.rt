// How many drivers of a node give each value. The node is an index, as it is for its value, and no byte, which each function would widen anew;
// one function for one less and one more would be no plainer than the two.
ghost use Rattle.std.specs.Prelude.{◌≡◌, ◌<◌};
ghost use Rattle.level.specs.Join.{joined_counts};
ghost use Rattle.sheet.specs.Limits.{most_nodes};
ghost use Rattle.tick.specs.Tally.{count_at, one_less, one_more};

use crate::COUNTS;
use level::Level;

// One driver of a node gives a value no more.
pub(crate) fn count_less(counts: &mut [u16; COUNTS], output: usize, value: u8)
    requires { (output < most_nodes) × (value < 4) × (0 < count_at counts.old output value) }
    ensures { counts.new ≡ one_less counts.old output value }
{
    counts[4 * output + usize::from(value)] -= 1;
}

// One driver of a node more gives a value.
pub(crate) fn count_more(counts: &mut [u16; COUNTS], output: usize, value: u8)
    requires { (output < most_nodes) × (value < 4) × (count_at counts.old output value < 65535) }
    ensures { counts.new ≡ one_more counts.old output value }
{
    counts[4 * output + usize::from(value)] += 1;
}

// What the drivers of a node come to together.
pub(crate) fn joined_at(counts: &[u16; COUNTS], output: usize) -> u8
    requires { output < most_nodes }
    ensures { (result ≡ joined_counts (count_at counts.now output 0) (count_at counts.now output 1)
        (count_at counts.now output 2))
        × (result < 4) }
{
    let at = 4 * output;
    Level::joined(counts[at], counts[at + 1], counts[at + 2])
}

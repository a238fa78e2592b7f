// The line of a record.
ghost use Rattle.std.specs.Prelude.{◌∷◌, ◌≡◌};
ghost use Rattle.level.specs.Level.{printed};
ghost use Rattle.lent.specs.Decimal.{decimal};
ghost use Rattle.lent.specs.Lent.{Puts};
ghost use Rattle.text.specs.Printing.{blank, record_line, listed_record, record_lines};

use lent::Writer;
use level::Level;
use listing::record_at;

// The byte that prints a value, of a byte that need not be one: as X where it is none.
fn value_byte(value: u8) -> u8
    ensures { result ≡ printed value }
{
    if value <= Level::NONE {
        Level::printed(value)
    } else {
        Level::printed(Level::UNKNOWN)
    }
}

// Puts a blank and a number in decimal.
fn put_field(out: &mut Writer, n: u32)
    ensures { Puts (blank ∷ decimal n) out.old out.new }
{
    out.put(b' ');
    out.put_decimal(n);
}

// Puts the line of record number i of the listing: tick, node, value, end.
fn put_record(out: &mut Writer, listing: &[u8], i: u32)
    ensures { Puts (record_line (listed_record listing.now i)) out.old out.new }
{
    let record = record_at(listing, i);
    out.put_decimal(record.tick);
    put_field(out, record.node as u32);
    out.put(b' ');
    out.put(value_byte(record.value));
    put_field(out, record.end);
    out.put(b'\n');
}

// Puts the lines of the first records of the listing.
pub(crate) fn put_lines(out: &mut Writer, count: u32, listing: &[u8])
    ensures { Puts (record_lines count listing.now) out.old out.new }
{
    for i in 0..count {
        put_record(out, listing, i);
    }
}

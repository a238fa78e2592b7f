// A record's bytes: tick (4 bytes), node, value, end (4 bytes). Nothing else knows them.
ghost use Rattle.std.specs.Prelude.{[], ◌∷◌, ◌≡◌, ◌+◌, ◌*◌, ◌^◌, ◌<◌, ◌≤◌, length};
ghost use Rattle.sheet.specs.Bytes.{long_at};
ghost use Rattle.format.specs.Encode.{long_bytes};
ghost use Rattle.network.specs.Buffer.{record_size, record_in};
ghost use Rattle.listing.specs.Record.{record_of, put, written, end_written};

use sheet::byte;

pub(crate) const RECORD_SIZE: usize = 10;

// A record of the listing.
#[derive(Clone, Copy, PartialEq, Eq)]
pub struct Listed {
    pub tick: u32,
    pub node: u8,
    pub value: u8,
    pub end: u32,
}

// Writes a number of four bytes at a place, the low byte first.
pub fn write_long(listing: &mut [u8], at: usize, n: u32)
    requires { at + 4 ≤ length listing.old }
    ensures { listing.new ≡ put at (long_bytes n) listing.old }
{
    listing[at..at + 4].copy_from_slice(&n.to_le_bytes());
}

// Writes record number n of the listing.
pub(crate) fn write_record(listing: &mut [u8], n: usize, listed: Listed)
    requires { record_size * (n + 1) ≤ length listing.old }
    ensures { listing.new ≡ written n (record_of listed ∷ []) listing.old }
{
    let at = RECORD_SIZE * n;
    write_long(listing, at, listed.tick);
    listing[at + 4] = listed.node;
    listing[at + 5] = listed.value;
    write_long(listing, at + 6, listed.end);
}

// Puts another end into record number n of the listing.
pub(crate) fn write_end(listing: &mut [u8], n: usize, end: u32)
    requires { record_size * (n + 1) ≤ length listing.old }
    ensures { listing.new ≡ end_written n end listing.old }
{
    write_long(listing, RECORD_SIZE * n + 6, end);
}

// The number of four bytes at a place of a record, whose number has 32 bits, the low byte first. Within the listing they are read at once, and not
// byte by byte as `sheet` reads a sheet's: a report took 8.0 ns a pulse so, and takes 3.4.
fn long(s: &[u8], p: usize) -> u32
    requires { p < record_size * 2 ^ 32 }
    ensures { result ≡ long_at s.now p }
{
    if p + 4 <= s.len() {
        return u32::from_le_bytes([s[p], s[p + 1], s[p + 2], s[p + 3]]);
    }
    u32::from_le_bytes([byte(s, p), byte(s, p + 1), byte(s, p + 2), byte(s, p + 3)])
}

// Record number i of the listing, and zeros past its end.
pub fn record_at(listing: &[u8], i: u32) -> Listed
    ensures { record_of result ≡ record_in listing.now (record_size * i) }
{
    let at = RECORD_SIZE * (i as usize);
    Listed {
        tick: long(listing, at),
        node: byte(listing, at + 4),
        value: byte(listing, at + 5),
        end: long(listing, at + 6),
    }
}

// The pulses that a listing's records show. A record has both ends of its stretch: one pass counts the pulses, and one puts them.
ghost use Rattle.std.specs.Prelude.{List, ◌≡◌, length};
ghost use Rattle.sheet.specs.Told.{answer_in};
ghost use Rattle.format.specs.Encode.{long_bytes};
ghost use Rattle.format.specs.Made.{written_answer};
ghost use Rattle.lent.specs.Lent.{Puts};
ghost use Rattle.listing.specs.Record.{record_of};
ghost use Rattle.pulses.specs.Pulse.{Pulse, to_report, pulse_of};
ghost use Rattle.pulses.specs.Report.{pulse_bytes, report_bytes};
ghost use Rattle.pulses.specs.InListing.{pulse_in, pulses_in};
ghost use Rattle.pulses.specs.Reporting.{report_of};

use lent::Writer;
use listing::{Listed, record_at, write_long};
use sheet::Refusal;

const PULSE_SIZE: usize = 9;

// The answer to a report of so many pulses, from a listing of so many records, to a buffer of so many bytes.
pub(crate) fn room_answer(pulses: u32, records: u32, bytes: usize) -> Result<u32, Refusal>
    ensures { (made : List Pulse) → pulses ≡ length made → answer_in result ≡ written_answer (report_of made records) bytes }
{
    if bytes < PULSE_SIZE * (pulses as usize) {
        return Err(Refusal::ReportShort(pulses, records));
    }
    Ok(pulses)
}

// Puts a number of four bytes, the low byte first. Where there is room for all of them they are written at once: byte by byte a call whose records are
// all pulses took a quarter longer.
fn put_long(out: &mut Writer, n: u32)
    ensures { Puts (long_bytes n) out.old out.new }
{
    let room = out.text.len();
    if 4 <= room && out.at <= room - 4 {
        write_long(out.text, out.at, n);
        out.at += 4;
        return;
    }
    out.put_all(&n.to_le_bytes());
}

// Puts a record's pulse: start tick, node, length.
fn put_pulse(out: &mut Writer, listed: Listed)
    ensures { Puts (pulse_bytes (pulse_of listed.tick listed.node listed.end)) out.old out.new }
{
    put_long(out, listed.tick);
    out.put(listed.node);
    put_long(out, listed.end.saturating_sub(listed.tick));
}

// A listing of n records, run to a horizon, and the width that its pulses are to be shorter than.
#[derive(Clone, Copy)]
pub(crate) struct Reporting<'a> {
    pub listing: &'a [u8],
    pub n: u32,
    pub horizon: u32,
    pub width: u32,
}

impl Reporting<'_> {
    // Whether a record's stretch starts after tick 0, is ended below the horizon, and is shorter than the width.
    fn to_report(&self, listed: Listed) -> bool
        ensures { result ≡ to_report self.now.horizon self.now.width listed.tick listed.end }
    {
        0 < listed.tick
            && listed.end < self.horizon
            && listed.end.saturating_sub(listed.tick) < self.width
    }

    // The count of pulses to report.
    pub(crate) fn count_pulses(&self) -> u32
        ensures { result ≡ length (pulses_in self.now.horizon self.now.width self.now.listing.now self.now.n) }
    {
        // No chain of filter and count: over a range of numbers the search does not find that it counts `pulses_in`.
        let mut count: u32 = 0;
        for i in 0..self.n {
            if self.to_report(record_at(self.listing, i)) {
                count += 1;
            }
        }
        count
    }

    // Puts the pulse of a record, if it is to be reported.
    fn put_record(&self, out: &mut Writer, listed: Listed)
        ensures { Puts (report_bytes (pulse_in self.now.horizon self.now.width (record_of listed))) out.old out.new }
    {
        if self.to_report(listed) {
            put_pulse(out, listed);
        }
    }

    // Puts the pulses to report.
    pub(crate) fn put_pulses(&self, out: &mut Writer)
        ensures { Puts (report_bytes (pulses_in self.now.horizon self.now.width self.now.listing.now self.now.n)) out.old out.new }
    {
        for i in 0..self.n {
            self.put_record(out, record_at(self.listing, i));
        }
    }
}

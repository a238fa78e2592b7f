// A sheet to be converted, by its module records.
ghost use Rattle.std.specs.Prelude.{◌≡◌, ◌+◌, ◌-◌, ◌*◌, ◌≤◌, length};
ghost use Rattle.sheet.specs.Enumerate.{each};
ghost use Rattle.sheet.specs.Layout.{modules_counted, module_place};
ghost use Rattle.sheet.specs.Refusal.{first};
ghost use Rattle.sheet.specs.Told.{refusal_in};
ghost use Rattle.lent.specs.Lent.{Puts};
ghost use Rattle.convert.specs.Converted.{third_in, converted_record, records_place, converted, needed};
ghost use Rattle.convert.specs.Conversion.{kind_rows};

use lent::Writer;
use sheet::{Edition, Refusal};

// The bytes of a record before its third input, and of its delay.
const BEFORE_THIRD: usize = 5;

const DELAY_BYTES: usize = 2;

// A sheet of one edition, to stand in the other: the place of its first module record, and the count of these. They lie within the sheet.
#[derive(Clone, Copy)]
pub(crate) struct Conversion<'a> {
    pub from: Edition,
    pub to: Edition,
    pub sheet: &'a [u8],
    pub place: u32,
    pub n: u16,
    ghost placed: { place ≡ records_place sheet.now },
    ghost counted: { n ≡ modules_counted sheet.now },
    ghost whole: { 7 ≤ from.size },
    ghost within: { place + from.size * n ≤ length sheet.now },
    ghost short: { length sheet.now ≤ 65535 },
}

impl Conversion<'_> {
    // The place of a record by its number.
    fn record_place(&self, m: u16) -> u32
        ensures { result ≡ module_place self.now.from self.now.sheet.now m }
    {
        self.place + (self.from.size as u32) * (m as u32)
    }

    // Refuses a kind that the other edition lacks, at the first record that has one.
    pub(crate) fn kind_refusal(&self) -> Result<(), Refusal>
        ensures { refusal_in result ≡ first (each (modules_counted self.now.sheet.now) (kind_rows self.now.from self.now.to self.now.sheet.now)) }
    {
        for m in 0..self.n {
            let place = self.record_place(m);
            if self.to.greatest < sheet::byte(self.sheet, place as usize) {
                return Err(Refusal::KindNotInFirst(place));
            }
        }
        Ok(())
    }

    // Puts the third input of the record at a place, if the other edition has one.
    fn put_third(&self, out: &mut Writer, place: u32)
        ensures { Puts (third_in self.now.from self.now.to self.now.sheet.now place) out.old out.new }
    {
        if sheet::has_third(self.to) {
            out.put(sheet::third_at(self.from, self.sheet, place));
        }
    }

    // Puts the record at a place as it stands in the other edition.
    fn put_record(&self, out: &mut Writer, place: u32)
        requires { place + self.now.from.size ≤ length self.now.sheet.now }
        ensures { Puts (converted_record self.now.from self.now.to self.now.sheet.now place) out.old out.new }
    {
        let fields = place as usize;
        let delay = sheet::delay_place(self.from, place);
        out.put_all(&self.sheet[fields..fields + BEFORE_THIRD]);
        self.put_third(out, place);
        out.put_all(&self.sheet[delay..delay + DELAY_BYTES]);
    }

    // Puts the records.
    fn put_records(&self, out: &mut Writer)
        ensures { Puts (each self.now.n (λ m. converted_record self.now.from self.now.to self.now.sheet.now (module_place self.now.from self.now.sheet.now m)))
            out.old out.new }
    {
        for m in 0..self.n {
            self.put_record(out, self.record_place(m));
        }
    }

    // Puts the whole sheet.
    pub(crate) fn put_sheet(&self, out: &mut Writer)
        ensures { Puts (converted self.now.from self.now.to self.now.sheet.now) out.old out.new }
    {
        let records = self.place as usize;
        let drive = records + (self.from.size as usize) * (self.n as usize);
        out.put_all(&self.sheet[..records]);
        self.put_records(out);
        out.put_all(&self.sheet[drive..]);
    }

    // The bytes of the sheet in the other edition.
    pub(crate) fn length_needed(&self) -> usize
        ensures { result ≡ needed self.now.from self.now.to self.now.sheet.now }
    {
        let others = self.sheet.len() - (self.from.size as usize) * (self.n as usize);
        others + (self.to.size as usize) * (self.n as usize)
    }
}

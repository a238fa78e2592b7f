// The sheet reader: each section is read at the offset, which then moves on past it.
ghost use Rattle.std.specs.Prelude.{◌≡◌, ◌≤◌};
ghost use Rattle.sheet.specs.Flags.{Flags};
ghost use Rattle.sheet.specs.Layout.{nodes_counted, node_at, modules_place, drive_place, events_counted, event_at};
ghost use Rattle.sheet.specs.Layout.{watched_place, watched_counted, watched_at, sheet_of};
ghost use Rattle.sheet.specs.Limits.{most_nodes};
ghost use Rattle.sheet.specs.Refusal.{nodes_section};
ghost use Rattle.sheet.specs.Sections.{rows_of_modules, rows_of_drive, rows_of_watched, SectionRead};
ghost use Rattle.sheet.specs.Sheet.{no_event};
ghost use Rattle.sheet.specs.Told.{Told};
ghost use Rattle.sheet.specs.Wiring.{is_driven};
ghost use Rattle.read_modules.specs.Read.{ModulesKnown};

use read_modules::ModulesRead;
use sheet::{COUNT_SIZE, EVENT_SIZE, EVENTS, Edition, Event, NODES, Refusal, Section, WATCHED};

// The lent bytes, and the offset of the section to be read next.
#[derive(Drop)]
pub(crate) struct SheetReader<'a> {
    pub bytes: &'a [u8],
    pub at: u32,
}

impl SheetReader<'_> {
    pub(crate) fn nodes(&mut self) -> Result<Section<u8, NODES>, Refusal>
        requires { self.old.at ≡ 0 }
        ensures read { let s = self.old.bytes.now in
            Told (nodes_section s) (λ nodes. SectionRead 0 (nodes_counted s) (node_at s) nodes × (self.new.at ≡ modules_place s)) result }
        ensures lent { self.new.bytes ≡ self.old.bytes }
    {
        let nodes = read_nodes::nodes_section(self.bytes, self.at)?;
        self.at += COUNT_SIZE + (nodes.count as u32);
        Ok(nodes)
    }

    pub(crate) fn modules(
        &mut self,
        e: Edition,
        nodes: &Section<u8, NODES>,
    ) -> Result<ModulesRead, Refusal>
        requires { let s = self.old.bytes.now in (self.old.at ≡ modules_place s) × SectionRead 0 (nodes_counted s) (node_at s) nodes.now }
        ensures read { let s = self.old.bytes.now in
            Told (rows_of_modules e s) (λ read. ModulesKnown e s read × (self.new.at ≡ drive_place e s) × (self.new.at ≤ 65600)) result }
        ensures lent { self.new.bytes ≡ self.old.bytes }
    {
        let read = read_modules::modules_section(e, self.bytes, self.at, nodes)?;
        self.at = read.end;
        Ok(read)
    }

    pub(crate) fn drive(
        &mut self,
        strict: bool,
        e: Edition,
        nodes: u16,
        driven: &[bool; NODES],
    ) -> Result<Section<Event, EVENTS>, Refusal>
        requires { let s = self.old.bytes.now in (self.old.at ≡ drive_place e s) × (self.old.at ≤ 65600) × (nodes ≡ nodes_counted s)
            × (nodes ≤ most_nodes) × Flags driven.now (is_driven (sheet_of e s)) }
        ensures read { let s = self.old.bytes.now in Told (rows_of_drive strict e s)
            (λ drive. SectionRead no_event (events_counted e s) (event_at e s) drive
            × (self.new.at ≡ watched_place e s) × (self.new.at ≤ 100000)) result }
        ensures lent { self.new.bytes ≡ self.old.bytes }
    {
        let drive = read_drive::drive_section(strict, e, self.bytes, self.at, nodes, driven)?;
        self.at += COUNT_SIZE + EVENT_SIZE * (drive.count as u32);
        Ok(drive)
    }

    // The last section, after which nothing is read.
    pub(crate) fn watched(
        &mut self,
        e: Edition,
        nodes: u16,
    ) -> Result<Section<u8, WATCHED>, Refusal>
        requires { let s = self.old.bytes.now in (self.old.at ≡ watched_place e s) × (self.old.at ≤ 100000) × (nodes ≡ nodes_counted s) }
        ensures { let s = self.old.bytes.now in
            Told (rows_of_watched e s) (SectionRead 0 (watched_counted e s) (watched_at e s)) result }
    {
        read_nodes::watched_section(e, self.bytes, self.at, nodes)
    }
}

// What a call answers, and what it refuses.
ghost use Rattle.std.specs.Prelude.{◌≡◌, get_or};
ghost use Rattle.sheet.specs.Outcome.{outcome_of, numbers, from_numbers};
ghost use Rattle.sheet.specs.Told.{as_refused, answer_in, refusal_in};

// What a call of the library answers: document 01's form, and so no Result.
#[derive(Clone, Copy, PartialEq, Eq)]
pub enum Answer {
    // A finished call, with its count.
    Ran(u32),
    // A refusal: number, place, count of records written.
    Refused(u32, u32, u32),
}

// A refusal, as a row of the tables of document 01 and document 02 has it: with its place, where that is not always 0, and with the count
// of records, where that is not always 0. No row of 9 is left.
#[derive(Clone, Copy, PartialEq, Eq)]
pub enum Refusal {
    HorizonOutside,
    // At a byte of the sheet.
    BytesEnd(u32),
    CountOutside(u32),
    NodeByte(u32),
    Kind(u32),
    Parameter(u32),
    Wiring(u32),
    Delay(u32),
    // At a node.
    NodeUse(u32),
    // At a byte of the sheet.
    EventTick(u32),
    EventNode(u32),
    EventValue(u32),
    EventOrder(u32),
    // At a node.
    NotBegun(u32),
    // At a byte of the sheet.
    Watched(u32),
    BytesLeft(u32),
    // At a node.
    Loop(u32),
    // At a tick, with the records written.
    ListingFull(u32, u32),
    TooManyPending(u32, u32),
    // With the length needed.
    TextShort(u32),
    // At a byte of the sheet.
    KindNotInFirst(u32),
    // With the length needed.
    OutputShort(u32),
    WidthOutside,
    // With the pulses to report, and the listing's records.
    ReportShort(u32, u32),
    DrawnTooMany,
}

impl From<Refusal> for Answer {
    ghost from_gives = { λ refusal answer. outcome_of answer ≡ as_refused refusal };

    fn from(refusal: Refusal) -> Answer {
        match refusal {
            Refusal::HorizonOutside => Answer::Refused(1, 0, 0),
            Refusal::BytesEnd(place) => Answer::Refused(2, place, 0),
            Refusal::CountOutside(place) => Answer::Refused(3, place, 0),
            Refusal::NodeByte(place) => Answer::Refused(4, place, 0),
            Refusal::Kind(place) => Answer::Refused(5, place, 0),
            Refusal::Parameter(place) => Answer::Refused(6, place, 0),
            Refusal::Wiring(place) => Answer::Refused(7, place, 0),
            Refusal::Delay(place) => Answer::Refused(8, place, 0),
            Refusal::NodeUse(node) => Answer::Refused(10, node, 0),
            Refusal::EventTick(place) => Answer::Refused(11, place, 0),
            Refusal::EventNode(place) => Answer::Refused(12, place, 0),
            Refusal::EventValue(place) => Answer::Refused(13, place, 0),
            Refusal::EventOrder(place) => Answer::Refused(14, place, 0),
            Refusal::NotBegun(node) => Answer::Refused(15, node, 0),
            Refusal::Watched(place) => Answer::Refused(16, place, 0),
            Refusal::BytesLeft(place) => Answer::Refused(17, place, 0),
            Refusal::Loop(node) => Answer::Refused(18, node, 0),
            Refusal::ListingFull(tick, records) => Answer::Refused(19, tick, records),
            Refusal::TooManyPending(tick, records) => Answer::Refused(20, tick, records),
            Refusal::TextShort(needed) => Answer::Refused(21, needed, 0),
            Refusal::KindNotInFirst(place) => Answer::Refused(22, place, 0),
            Refusal::OutputShort(needed) => Answer::Refused(23, needed, 0),
            Refusal::WidthOutside => Answer::Refused(24, 0, 0),
            Refusal::ReportShort(pulses, records) => Answer::Refused(25, pulses, records),
            Refusal::DrawnTooMany => Answer::Refused(26, 0, 0),
        }
    }
}

// A finished call's count, or its refusal.
impl From<Result<u32, Refusal>> for Answer {
    ghost from_gives = { λ called answer. outcome_of answer ≡ answer_in called };

    fn from(called: Result<u32, Refusal>) -> Answer {
        match called {
            Ok(count) => Answer::Ran(count),
            Err(refusal) => Answer::from(refusal),
        }
    }
}

// A check's refusal, or a finished call with count 0.
impl From<Result<(), Refusal>> for Answer {
    ghost from_gives = { λ checked answer. outcome_of answer ≡ refusal_in checked };

    fn from(checked: Result<(), Refusal>) -> Answer {
        Answer::from(checked.map(|()| 0))
    }
}

// An answer's three numbers, for a caller in another language: number (0 for a finished call), place, count.
impl From<Answer> for [u32; 3] {
    ghost from_gives = { λ answer three. three ≡ numbers (outcome_of answer) };

    fn from(answer: Answer) -> [u32; 3] {
        match answer {
            Answer::Ran(count) => [0, 0, count],
            Answer::Refused(number, place, count) => [number, place, count],
        }
    }
}

// The answer that three numbers from such a caller stand for.
impl From<[u32; 3]> for Answer {
    ghost from_gives = { λ three answer. outcome_of answer ≡ from_numbers (get_or three 0 0) (get_or three 1 0) (get_or three 2 0) };

    fn from(three: [u32; 3]) -> Answer {
        match three {
            [0, _, count] => Answer::Ran(count),
            [number, place, count] => Answer::Refused(number, place, count),
        }
    }
}

// The refusals: what the product answers where it does not do what was asked.
ghost use Rattle.model.specs.Refusals.{number_of, refusal_at, refused_text};
ghost use Rattle.std.specs.Prelude.{◌≡◌, Some, decimal};

use std::fmt;

// Why a call was refused. A refused call changes nothing.
#[derive(Clone, Copy, Debug, PartialEq, Eq)]
pub enum Refusal {
    // a row breaks 1 <= cost <= deadline <= period <= 60,000
    RowOutsideLimits,
    // a draft has sixteen rows already
    SeventeenthRow,
    // a draft without rows
    NoRows,
    // the periods' least common multiple is above 60,000
    HyperperiodTooLong,
    // more than 4,096 jobs are released in one hyperperiod
    TooManyJobs,
    // a job of this row, counted from 1, is late: the ticks that it lacks when due
    DeadlineMissed { row: u8, lacking: u16 },
    // a buffer for the slack table has too few words, or other entries than these rows have
    EntriesUnfit,
    // a tick after tick count 2,000,000,000, or a stop outside 1 to that count
    TicksOutsideRange,
    // a tick told to a teller that its state does not allow
    ToldOutOfTurn,
    // a request of 0 or of more than 60,000 ticks
    RequestOutsideLimits,
    // sixty-four requests wait already
    LineFull,
    // a flight file of more than 65,536 bytes
    FileTooLong,
    // the file's end comes inside a record
    EndInsideRecord,
    // no record has this kind byte
    UnknownKind,
    // a record that may not stand after those before it
    RecordOutOfPlace,
    // the file ends without a stop record
    NoStopRecord,
    // an output buffer is shorter than the bytes to be written
    OutputTooShort,
}

impl Refusal {
    // The number by which the product's users know the refusal, 1 to 17. No `From` for `u8`: the match
    // would be the same, and `u8::from(refusal)` would not say of what it is the number.
    pub fn number(&self) -> u8
        ensures { result ≡ number_of self.now }
    {
        match *self {
            Refusal::RowOutsideLimits => 1,
            Refusal::SeventeenthRow => 2,
            Refusal::NoRows => 3,
            Refusal::HyperperiodTooLong => 4,
            Refusal::TooManyJobs => 5,
            Refusal::DeadlineMissed { .. } => 6,
            Refusal::EntriesUnfit => 7,
            Refusal::TicksOutsideRange => 8,
            Refusal::ToldOutOfTurn => 9,
            Refusal::RequestOutsideLimits => 10,
            Refusal::LineFull => 11,
            Refusal::FileTooLong => 12,
            Refusal::EndInsideRecord => 13,
            Refusal::UnknownKind => 14,
            Refusal::RecordOutOfPlace => 15,
            Refusal::NoStopRecord => 16,
            Refusal::OutputTooShort => 17,
        }
    }

    // The refusal of what stands at this place of a file.
    pub fn at(self, place: usize) -> PlacedRefusal
        ensures { result ≡ refusal_at self place }
    {
        PlacedRefusal {
            refusal: self,
            place,
        }
    }
}

// Its number.
impl fmt::Display for Refusal {
    ghost output = { λ e. Some (decimal (number_of e)) };

    fn fmt<W: fmt::Write>(&self, f: &mut fmt::Formatter<W>) -> fmt::Result {
        write!(f, "{}", self.number())
    }
}

// A refusal of something in a flight file, with its place there: an offset in bytes.
#[derive(Clone, Copy, Debug, PartialEq, Eq)]
pub struct PlacedRefusal {
    pub refusal: Refusal,
    pub place: usize,
}

// As the product prints it: the word refused, the number and the place.
impl fmt::Display for PlacedRefusal {
    ghost output = { λ p. Some (refused_text p.refusal p.place) };

    fn fmt<W: fmt::Write>(&self, f: &mut fmt::Formatter<W>) -> fmt::Result {
        write!(f, "refused,{},{}", self.refusal, self.place)
    }
}

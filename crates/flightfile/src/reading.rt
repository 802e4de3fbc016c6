// Reading a flight file.
ghost use Rattle.flightfile.specs.Answers.{OneAnswer, LongestRun};
ghost use Rattle.flightfile.specs.Reading.{Reads, Enough};
ghost use Rattle.flightfile.specs.declared.reading.ReadError.TheVariants.{Refused as Rejected, NoMemory};
ghost use Rattle.std.specs.Prelude.{◌≡◌, vec_capacity};

use crate::file::FlightFile;
use crate::reader::Reader;
use crate::record::{Record, Request};
use model::refusal::{PlacedRefusal, Refusal};
use std::alloc::AllocFailed;

// The longest flight file, in bytes.
pub const MOST_BYTES: usize = 65_536;

// Why there is no content: the file is refused, or there was no memory for all its requests.
#[derive(Clone, Copy, Debug, PartialEq, Eq)]
pub enum ReadError {
    Refused(PlacedRefusal),
    NoMemory,
}

impl From<PlacedRefusal> for ReadError {
    ghost from_gives = { λ e r. r ≡ Rejected e };

    fn from(e: PlacedRefusal) -> ReadError {
        ReadError::Refused(e)
    }
}

impl<T: Drop> From<AllocFailed<T>> for ReadError {
    ghost from_gives = { λ _ r. r ≡ NoMemory };

    fn from(_e: AllocFailed<T>) -> ReadError {
        ReadError::NoMemory
    }
}

impl FlightFile {
    // The content of the file, or the first thing that is wrong with it and where. The requests are kept in
    // `room`, and what it holds is let go: with memory for 7,281 of them every file is answered.
    #[tactic(auto, using(crate::proofs::OneAnswer::one_answer, crate::proofs::OneAnswer::longest_run))]
    pub fn read(room: Vec<Request>, input: &[u8]) -> Result<FlightFile, ReadError>
        ensures answer { Reads (vec_capacity room) input.now result }
        ensures enough { Enough (vec_capacity room) result }
        ensures one { OneAnswer }
        ensures longest { LongestRun }
    {
        if input.len() > MOST_BYTES {
            return Err(Refusal::FileTooLong.at(0).into());
        }
        let mut reader = Reader::new(room);
        let mut rest = input;
        while !rest.is_empty() {
            let place = input.len() - rest.len();
            // a `ReadError` in the closure and not by `?`: with a `PlacedRefusal` the compiler moves each record
            // over the stack, and a read takes up to twice as long
            let (record, after) = Record::split(rest).map_err(|e| ReadError::from(e.at(place)))?;
            reader.admit(record, place)?;
            rest = after;
        }
        Ok(reader.finish().map_err(|refusal| refusal.at(input.len()))?)
    }
}

// A reader of the records of a flight file: each is tested against the part of the file that has been
// reached, and taken in.
ghost use Rattle.std.specs.Prelude.{◌≡◌, ◌≤◌, [], length, None, vec_capacity};
ghost use Rattle.flightfile.specs.Contents.{content, bytes, Lawful, Lawful-prop};
ghost use Rattle.flightfile.specs.Phases.{stop_of, Reached, Reached-prop};
ghost use Rattle.model.specs.Drafts.{rows_of};

use crate::file::FlightFile;
use crate::reading::ReadError;
use crate::record::{Record, Request};
use model::draft::Draft;
use model::refusal::Refusal;

// The last tick count of a flight.
const LAST_TICK: u32 = 2_000_000_000;

// The part of the file that has been reached, with the arrival that no request may fall below.
#[derive(Clone, Copy)]
pub(crate) enum Phase {
    Rows,
    Requests { last: u32 },
    Stopped { ticks: u32 },
}

// What the records so far say. It is always lawful.
#[derive(Drop)]
pub(crate) struct Reader {
    phase: Phase,
    rows: Draft,
    requests: Vec<Request>,
    ghost lawful: { Lawful (content (rows_of rows) requests.items (stop_of phase)) } by { Lawful-prop (content (rows_of rows) requests.items (stop_of phase)) },
    ghost reached: { Reached phase requests.items } by { Reached-prop phase requests.items },
}

impl Reader {
    ghost use Rattle.flightfile.specs.Answers.{last_arrival};
    ghost use Rattle.flightfile.specs.Progress.{seen, Admitted, Finished};

    // Before the first record. The requests will be kept in `room`, whatever it holds now.
    pub(crate) fn new(mut room: Vec<Request>) -> Reader
        ensures nothing { seen result ≡ content [] [] None }
        ensures room { vec_capacity room ≤ vec_capacity result.requests }
    {
        room.clear();
        Reader {
            phase: Phase::Rows,
            rows: Draft::new(),
            requests: room,
        }
    }

    // Takes in the record at `place`, if it may stand here and its numbers are within their limits. The place
    // goes along, since an error without it would be `ReadError` once more.
    pub(crate) fn admit(&mut self, found: Record, place: usize) -> Result<(), ReadError>
        ensures { Admitted self.old found place result self.new }
    {
        match (self.phase, found) {
            (Phase::Rows, Record::Row(times)) => {
                Ok(self.rows.add(times).map_err(|refusal| refusal.at(place))?)
            }
            (Phase::Rows, Record::Request(request)) => self.admit_request(0, request, place),
            (Phase::Requests { last }, Record::Request(request)) => self.admit_request(
                last, request, place,
            ),
            // twice: the project wants phase and kind matched together, and the check has no rule for one
            // arm over both phases that reads `ticks`, written as `A | B` or as `_` behind the third's arm
            (Phase::Rows, Record::Stop(ticks)) => self.admit_stop(ticks, place),
            (Phase::Requests { .. }, Record::Stop(ticks)) => self.admit_stop(ticks, place),
            _ => Err(Refusal::RecordOutOfPlace.at(place).into()),
        }
    }

    // Keeps a request, which may arrive no earlier than `last`.
    fn admit_request(&mut self, last: u32, request: Request, place: usize) -> Result<(), ReadError>
        requires running { stop_of self.old.phase ≡ None }
        requires last { last ≡ last_arrival 0 self.old.requests.items }
        ensures { Admitted self.old (Record.Request request) place result self.new }
    {
        if request.arrival < last {
            return Err(Refusal::RecordOutOfPlace.at(place).into());
        }
        request.check().map_err(|refusal| refusal.at(place))?;
        self.requests.push(request)?;
        self.phase = Phase::Requests {
            last: request.arrival,
        };
        Ok(())
    }

    // Notes the stop.
    fn admit_stop(&mut self, ticks: u32, place: usize) -> Result<(), ReadError>
        requires { stop_of self.old.phase ≡ None }
        ensures { Admitted self.old (Record.Stop ticks) place result self.new }
    {
        if !(1..=LAST_TICK).contains(&ticks) {
            return Err(Refusal::TicksOutsideRange.at(place).into());
        }
        self.phase = Phase::Stopped { ticks };
        Ok(())
    }

    // The content once all is read, if the stop has come.
    pub(crate) fn finish(self) -> Result<FlightFile, Refusal>
        requires { length (bytes (seen self)) ≤ 65536 }
        ensures { Finished (seen self) result }
    {
        let Reader {
            phase,
            rows,
            requests,
        } = self;
        match phase {
            Phase::Stopped { ticks } => Ok(FlightFile {
                rows,
                requests,
                stop: ticks,
            }),
            Phase::Rows | Phase::Requests { .. } => Err(Refusal::NoStopRecord),
        }
    }
}

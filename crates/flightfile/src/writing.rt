// Writing a flight file.
ghost use Rattle.std.specs.Prelude.{◌≡◌, ◌+◌, ◌*◌, ◌≤◌, map, length};
ghost use Rattle.flightfile.specs.Answers.{Says};
ghost use Rattle.flightfile.specs.Contents.{bytes};
ghost use Rattle.flightfile.specs.declared.record.Record.{Record as Meaning};
ghost use Rattle.flightfile.specs.declared.record.Record.TheVariants.{Request as asked, Row as to_row};
ghost use Rattle.flightfile.specs.Reading.{content_of};
ghost use Rattle.flightfile.specs.Records.{encode};
ghost use Rattle.flightfile.specs.Writing.{Fits, Puts, Written, WrittenBack};
ghost use Rattle.model.specs.Rows.{times_of};
ghost use Rattle.std.specs.List.{flat_map};

use crate::file::FlightFile;
use crate::record::{Kind, Record, Request};
use model::refusal::Refusal;
use model::row::{Row, Times};

// The bytes of each kind of record.
const ROW_BYTES: usize = 7;

const REQUEST_BYTES: usize = 9;

const STOP_BYTES: usize = 5;

// What has a record of its own in a flight file. It is no `From`, whose law relates two values: the
// contracts over many of these name the record that a value has.
pub trait ToRecord {
    // the record
    ghost meaning: { Self → Meaning };

    fn to_record(&self) -> Record
        ensures { result ≡ meaning self.now };
}

impl ToRecord for Row {
    ghost meaning = { λ r. to_row (times_of r) };

    fn to_record(&self) -> Record {
        Record::Row(Times::from(*self))
    }
}

impl ToRecord for Request {
    ghost meaning = { λ q. asked q };

    fn to_record(&self) -> Record {
        Record::Request(*self)
    }
}

// A buffer that is written from its front on: what stands before `at` has been written. It is no `Write`,
// since std says of a slice how many bytes were written to it and not which.
#[derive(Drop)]
struct Output<'a> {
    buffer: &'a mut [u8],
    at: usize,
}

impl Output<'_> {
    fn put_bytes(&mut self, bytes: &[u8])
        requires { Fits self.old bytes.now }
        ensures { Puts self.old bytes.now self.new }
    {
        let end = self.at + bytes.len();
        self.buffer[self.at..end].copy_from_slice(bytes);
        self.at = end;
    }

    // The bytes of its numbers are named one by one in patterns, as in `Record::split`: the project wants it so.
    fn put(&mut self, entry: Record)
        requires { Fits self.old (encode entry) }
        ensures { Puts self.old (encode entry) self.new }
    {
        match entry {
            Record::Row(times) => {
                let [c0, c1] = times.cost.to_le_bytes();
                let [d0, d1] = times.deadline.to_le_bytes();
                let [t0, t1] = times.period.to_le_bytes();
                self.put_bytes(&[Kind::Row as u8, c0, c1, d0, d1, t0, t1]);
            }
            Record::Request(request) => {
                let [a0, a1, a2, a3] = request.arrival.to_le_bytes();
                let [n0, n1] = request.number.to_le_bytes();
                let [t0, t1] = request.ticks.to_le_bytes();
                self.put_bytes(&[Kind::Request as u8, a0, a1, a2, a3, n0, n1, t0, t1]);
            }
            Record::Stop(ticks) => {
                let [s0, s1, s2, s3] = ticks.to_le_bytes();
                self.put_bytes(&[Kind::Stop as u8, s0, s1, s2, s3]);
            }
        }
    }

    // Writes the records of all these.
    fn put_all<T: ToRecord>(&mut self, items: &[T])
        requires { Fits self.old (flat_map (λ item. encode (T.meaning item)) items.now) }
        ensures { Puts self.old (flat_map (λ item. encode (T.meaning item)) items.now) self.new }
    {
        // a loop: of what a closure changes in `self` a proof would know nothing
        for item in items {
            self.put(item.to_record());
        }
    }
}

impl FlightFile {
    // How many bytes the file has.
    #[tactic(auto, using(crate::proofs::AllRecords::file_long))]
    pub fn byte_len(&self) -> usize
        ensures { result ≡ length (bytes (content_of self.now)) }
    {
        ROW_BYTES * self.rows.rows().len() + REQUEST_BYTES * self.requests.len() + STOP_BYTES
    }

    // Writes the file into the front of `out`, and answers how many bytes it has; or refuses with 17. The
    // buffer is lent, by whoever may have no heap, so how much of it is used is a number beside it.
    pub fn write(&self, out: &mut [u8]) -> Result<usize, Refusal>
        ensures wrote { Written (bytes (content_of self.now)) out.old result out.new }
        ensures back { WrittenBack (content_of self.now) result out.new }
        ensures readable { Says (bytes (content_of self.now)) (content_of self.now) }
    {
        if out.len() < self.byte_len() {
            return Err(Refusal::OutputTooShort);
        }
        let mut output = Output { buffer: out, at: 0 };
        output.put_all(self.rows.rows());
        output.put_all(self.requests.as_slice());
        output.put(Record::Stop(self.stop));
        Ok(output.at)
    }
}

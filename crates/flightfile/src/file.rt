// The content of a flight file.
ghost use Rattle.std.specs.Prelude.{◌≤◌, length, Some};
ghost use Rattle.flightfile.specs.Contents.{content, bytes, Lawful, Lawful-prop};
ghost use Rattle.model.specs.Drafts.{rows_of};

use crate::record::Request;
use model::draft::Draft;

// What a flight file says. Every value of it is lawful and fits into a file, so it can be written and
// read again.
#[derive(Drop)]
pub struct FlightFile {
    pub rows: Draft,
    pub requests: Vec<Request>,
    pub stop: u32,
    ghost lawful: { Lawful (content (rows_of rows) requests.items (Some stop)) } by { Lawful-prop (content (rows_of rows) requests.items (Some stop)) },
    ghost short: { length (bytes (content (rows_of rows) requests.items (Some stop))) ≤ 65536 },
}

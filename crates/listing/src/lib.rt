// The listing of a flight file: the text that the program `inspect` prints.
#![tactic(auto)]

ghost use Rattle.std.specs.Prelude.{◌≡◌, ◌↔◌, ◌++◌, IfOk, IsTrue, OnOk, Some, string_bytes};
ghost use Rattle.flightfile.specs.Contents.{bytes};
ghost use Rattle.flightfile.specs.Reading.{content_of};
ghost use Rattle.listing.specs.Lines.{record_line, record_lines, summary_text, found_word, refused_line, Reported};
ghost use Rattle.std.specs.List.{flat_map};

use flightfile::file::FlightFile;
use flightfile::reading::ReadError;
use flightfile::record::Record;
use flightfile::writing::ToRecord;
use model::refusal::PlacedRefusal;
use std::alloc::{AllocError, Global};
use std::{fmt, io};

// What the last line of a listing says of the file: its bytes, its rows and requests, and whether it was
// the same when it was written back.
#[derive(Clone, Copy)]
struct Summary {
    size: usize,
    rows: usize,
    requests: usize,
    same: bool,
}

impl fmt::Display for Summary {
    ghost output = { λ s. Some (summary_text s.size s.rows s.requests (found_word s.same)) };

    fn fmt<W: fmt::Write>(&self, f: &mut fmt::Formatter<W>) -> fmt::Result {
        let found = if self.same { "same" } else { "differs" };
        write!(
            f,
            "read,{},{},{},{found}",
            self.size, self.rows, self.requests
        )
    }
}

// Adds the lines of all these.
fn push_lines<T: ToRecord>(text: &mut String, items: &[T]) -> Result<(), AllocError>
    ensures { OnOk result (string_bytes text.new ≡ string_bytes text.old
        ++ flat_map (λ item. record_line (T.meaning item)) items.now) }
{
    // a loop: of what a closure changes in `text` a proof would know nothing
    for item in items {
        writeln!(text, "{}", item.to_record())?;
    }
    Ok(())
}

// The lines of a file's records. It walks as `FlightFile::write` does: one walk for both would hand each
// record to a closure, and the proof of that did not close, since nothing is known of what a closure wrote.
pub fn list(heap: Global, file: &FlightFile) -> Result<String, fmt::Error>
    ensures { IfOk result (λ s. string_bytes s ≡ record_lines (content_of file.now)) }
{
    let mut text = String::new(heap);
    push_lines(&mut text, file.rows.rows())?;
    push_lines(&mut text, file.requests.as_slice())?;
    writeln!(text, "{}", Record::Stop(file.stop))?;
    Ok(text)
}

// Whether the file, written, has just these bytes.
fn is_written_as(heap: Global, file: &FlightFile, input: &[u8]) -> Result<bool, AllocError>
    ensures { IfOk result (λ same. IsTrue same ↔ (bytes (content_of file.now) ≡ input.now)) }
{
    let mut buffer = vec![in heap; 0u8; input.len()]?;
    let out = buffer.as_mut_slice();
    // n stands beside the buffer, as `write` answers it
    match file.write(out) {
        Ok(n) => Ok(&out[..n] == input),
        Err(_) => Ok(false),
    }
}

// The line of a refusal.
pub fn refusal_line(heap: Global, refused: PlacedRefusal) -> Result<String, AllocError>
    ensures { IfOk result (λ s. string_bytes s ≡ refused_line refused.refusal refused.place) }
{
    format!(in heap; "{refused}\n")
}

// What `inspect` prints of a file.
pub fn report(heap: Global, input: &[u8]) -> io::Result<String>
    ensures { IfOk result (λ s. Reported input.now (string_bytes s)) }
{
    let file = match FlightFile::read(Vec::new(heap), input) {
        Ok(file) => file,
        Err(ReadError::Refused(refused)) => return Ok(refusal_line(heap, refused)?),
        Err(ReadError::NoMemory) => return Err(AllocError.into()),
    };
    let mut text = list(heap, &file)?;
    let summary = Summary {
        size: input.len(),
        rows: file.rows.rows().len(),
        requests: file.requests.len(),
        same: is_written_as(heap, &file, input)?,
    };
    writeln!(text, "{summary}")?;
    Ok(text)
}

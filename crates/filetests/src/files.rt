// Flight files: what is read, what is refused and where, what is written, and what is printed.
use flightfile::file::FlightFile;
use flightfile::reading::ReadError;
use flightfile::record::{Record, Request, Times};
use model::refusal::Refusal;
use std::alloc::{AllocError, Global};
use std::test::Fail;

static ROW: [u8; 7] = [0x52, 1, 0, 3, 0, 4, 0];

static REQUEST: [u8; 9] = [0x51, 3, 0, 0, 0, 7, 0, 2, 0];

// How many rows and requests a file says, and its stop.
#[derive(Clone, Copy, Debug, PartialEq)]
struct Counts {
    rows: usize,
    requests: usize,
    stop: u32,
}

// What a file says, in short, or its refusal's number and place.
type Outcome = Result<Counts, (u8, usize)>;

// The outcome of a file, if there was memory for it.
fn answer(heap: Global, bytes: &[u8]) -> Result<Outcome, ReadError> {
    match FlightFile::read(Vec::new(heap), bytes) {
        Ok(file) => Ok(Ok(Counts {
            rows: file.rows.rows().len(),
            requests: file.requests.len(),
            stop: file.stop,
        })),
        Err(ReadError::Refused(refused)) => Ok(Err((refused.refusal.number(), refused.place))),
        Err(no_memory) => Err(no_memory),
    }
}

// A file of so many good rows, so many good requests, which arrive together, and then these bytes.
#[derive(Clone, Copy)]
struct Parts {
    rows: usize,
    requests: usize,
    tail: &'static [u8],
}

// A file, and what is wanted of it.
#[derive(Clone, Copy)]
struct Case {
    parts: Parts,
    outcome: Outcome,
}

fn file(rows: usize, requests: usize, tail: &'static [u8]) -> Parts {
    Parts {
        rows,
        requests,
        tail,
    }
}

impl Parts {
    // It says what the parts do, with so many requests more in its last bytes.
    fn says(self, more: usize, stop: u32) -> Case {
        let counts = Counts {
            rows: self.rows,
            requests: self.requests.saturating_add(more),
            stop,
        };
        Case {
            parts: self,
            outcome: Ok(counts),
        }
    }

    fn refused(self, number: u8, place: usize) -> Case {
        Case {
            parts: self,
            outcome: Err((number, place)),
        }
    }

    fn bytes(&self, heap: Global) -> Result<Vec<u8>, AllocError> {
        let mut bytes = Vec::new(heap);
        for _ in 0..self.rows {
            bytes.extend_from_slice(&ROW)?;
        }
        for _ in 0..self.requests {
            bytes.extend_from_slice(&REQUEST)?;
        }
        bytes.extend_from_slice(self.tail)?;
        Ok(bytes)
    }
}

#[test]
fn each_refusal_at_its_edge(rt: HostRuntime) -> Result<(), Fail> {
    let heap = rt.alloc();
    let table = [
        // the least file, and the example
        file(0, 0, &[0x53, 12, 0, 0, 0]).says(0, 12),
        file(2, 1, &[0x53, 12, 0, 0, 0]).says(0, 12),
        // 1 and 2: rows
        file(16, 0, &[0x53, 12, 0, 0, 0]).says(0, 12),
        file(16, 0, &[0x52, 1, 0, 3, 0, 4, 0, 0x53, 12, 0, 0, 0]).refused(2, 112),
        file(16, 0, &[0x52, 0, 0, 0, 0, 0, 0, 0x53, 12, 0, 0, 0]).refused(2, 112),
        file(15, 0, &[0x52, 2, 0, 1, 0, 4, 0, 0x53, 12, 0, 0, 0]).refused(1, 105),
        file(0, 0, &[0x52, 1, 0, 1, 0, 0x61, 0xea]).refused(1, 0),
        // 8: stops
        file(1, 1, &[0x53, 0, 0, 0, 0]).refused(8, 16),
        file(1, 1, &[0x53, 1, 0, 0, 0]).says(0, 1),
        file(1, 1, &[0x53, 0x00, 0x94, 0x35, 0x77]).says(0, 2_000_000_000),
        file(1, 1, &[0x53, 0x01, 0x94, 0x35, 0x77]).refused(8, 16),
        // 10: requests of 0, 1, 60,000 and 60,001 ticks
        file(1, 0, &[0x51, 3, 0, 0, 0, 7, 0, 0, 0, 0x53, 12, 0, 0, 0]).refused(10, 7),
        file(1, 0, &[0x51, 3, 0, 0, 0, 7, 0, 1, 0, 0x53, 12, 0, 0, 0]).says(1, 12),
        file(
            0,
            1,
            &[0x51, 3, 0, 0, 0, 7, 0, 0x60, 0xea, 0x53, 12, 0, 0, 0],
        )
        .says(1, 12),
        file(0, 1, &[0x51, 3, 0, 0, 0, 7, 0, 0x61, 0xea]).refused(10, 9),
        // 12: the longest file, and one byte more
        file(8, 7275, &[0x53, 12, 0, 0, 0]).says(0, 12),
        file(8, 7275, &[0x53, 12, 0, 0, 0, 0]).refused(12, 0),
        // 14: no kind, tested before everything
        file(1, 1, &[0x50]).refused(14, 16),
        file(1, 1, &[0x54, 12, 0, 0, 0]).refused(14, 16),
        file(1, 1, &[0x53, 12, 0, 0, 0, 0]).refused(14, 21),
        // 15: out of place, tested before the record's own refusals; equal and rising arrivals are in place
        file(
            0,
            2,
            &[
                0x51, 0xff, 0xff, 0xff, 0xff, 0xff, 0xff, 2, 0, 0x53, 12, 0, 0, 0,
            ],
        )
        .says(1, 12),
        file(1, 1, &[0x52, 1, 0, 3, 0, 4, 0, 0x53, 12, 0, 0, 0]).refused(15, 16),
        file(16, 1, &[0x52, 0, 0, 0, 0, 0, 0]).refused(15, 121),
        file(1, 1, &[0x51, 2, 0, 0, 0, 7, 0, 0, 0]).refused(15, 16),
        file(1, 1, &[0x53, 12, 0, 0, 0, 0x53, 0, 0, 0, 0]).refused(15, 21),
        file(0, 0, &[0x53, 12, 0, 0, 0, 0x51, 3, 0, 0, 0, 7, 0, 2, 0]).refused(15, 5),
        file(0, 0, &[0x53, 12, 0, 0, 0, 0x52, 1, 0, 3, 0, 4, 0]).refused(15, 5),
        // 13: the end inside a record, tested before the place
        file(1, 1, &[0x52, 1, 0, 3, 0, 4]).refused(13, 16),
        file(0, 0, &[0x53, 12, 0, 0, 0, 0x53, 12, 0, 0]).refused(13, 5),
        // 16: no stop
        file(0, 0, &[]).refused(16, 0),
        file(16, 1, &[]).refused(16, 121),
    ];
    for case in table.iter() {
        let bytes = case.parts.bytes(heap)?;
        assert_eq!(rt; answer(heap, bytes.as_slice())?, case.outcome);
    }
    Ok(())
}

// Two rows, one request, stop 12.
static EXAMPLE: [u8; 28] = [
    0x52, 1, 0, 3, 0, 4, 0, 0x52, 1, 0, 3, 0, 3, 0, 0x51, 3, 0, 0, 0, 7, 0, 2, 0, 0x53, 12, 0, 0, 0,
];

#[test]
fn the_example_cut_at_every_byte(rt: HostRuntime) -> Result<(), Fail> {
    let heap = rt.alloc();
    for cut in 0..28 {
        // where the record begins that the cut falls into
        let place = match cut {
            0..7 => 0,
            7..14 => 7,
            14..23 => 14,
            _ => 23,
        };
        let number = if cut == place { 16 } else { 13 };
        assert_eq!(rt; answer(heap, &EXAMPLE[0..cut])?, Err((number, place)));
    }
    let whole = Counts {
        rows: 2,
        requests: 1,
        stop: 12,
    };
    assert_eq!(rt; answer(heap, &EXAMPLE)?, Ok(whole));
    Ok(())
}

#[test]
fn a_file_is_written_as_it_was_read(rt: HostRuntime) -> Result<(), Fail> {
    // what the room holds is let go
    let old = Request {
        arrival: 9,
        number: 9,
        ticks: 9,
    };
    let file = FlightFile::read(vec![in rt.alloc(); old]?, &EXAMPLE)?;
    assert_eq!(rt; file.byte_len(), 28);
    let mut exact = [9u8; 28];
    assert_eq!(rt; file.write(&mut exact)?, 28);
    assert!(rt; exact.as_slice() == EXAMPLE.as_slice());
    let mut longer = [9u8; 30];
    assert_eq!(rt; file.write(&mut longer)?, 28);
    assert!(rt; &longer[0..28] == EXAMPLE.as_slice());
    assert!(rt; longer[28] == 9 && longer[29] == 9);
    let mut shorter = [9u8; 27];
    assert_eq!(rt; file.write(&mut shorter), Err(Refusal::OutputTooShort));
    assert!(rt; shorter == [9u8; 27]);
    Ok(())
}

#[test]
fn a_file_is_listed_line_by_line(rt: HostRuntime) -> Result<(), Fail> {
    let text = listing::report(rt.alloc(), &EXAMPLE)?;
    assert_eq!(rt;
        text.as_str(),
        "row,1,3,4\nrow,1,3,3\nrequest,3,7,2\nstop,12\nread,28,2,1,same\n"
    );
    let text = listing::report(rt.alloc(), &EXAMPLE[0..27])?;
    assert_eq!(rt; text.as_str(), "refused,13,23\n");
    Ok(())
}

#[test]
fn records_are_printed_with_their_largest_numbers(rt: HostRuntime) -> Result<(), Fail> {
    let request = Request {
        arrival: u32::MAX,
        number: u16::MAX,
        ticks: 0,
    };
    let row = Record::Row(Times {
        cost: 0,
        deadline: u16::MAX,
        period: 1,
    });
    let text = format!(in rt.alloc();
        "{row} {} {}",
        Record::Request(request),
        Record::Stop(u32::MAX)
    )?;
    assert_eq!(rt;
        text.as_str(),
        "row,0,65535,1 request,4294967295,65535,0 stop,4294967295"
    );
    Ok(())
}

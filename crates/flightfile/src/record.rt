// The records of a flight file: a kind byte and a body whose length the kind fixes.
ghost use Rattle.std.specs.Prelude.{◌<◌, length, Some};
ghost use Rattle.flightfile.specs.Records.{Split, KindRead};
ghost use Rattle.flightfile.specs.Texts.{record_text};

use model::refusal::Refusal;
pub use model::request::Request;
pub use model::row::Times;
use std::fmt;

// The kinds of record. Each is its kind byte, a letter.
#[derive(Clone, Copy, Debug, PartialEq, Eq)]
pub(crate) enum Kind {
    Row = b'R' as isize,
    Request = b'Q' as isize,
    Stop = b'S' as isize,
}

impl TryFrom<u8> for Kind {
    type Error = Refusal;

    ghost try_from_gives = { KindRead };

    fn try_from(byte: u8) -> Result<Kind, Refusal> {
        match byte {
            b'R' => Ok(Kind::Row),
            b'Q' => Ok(Kind::Request),
            b'S' => Ok(Kind::Stop),
            _ => Err(Refusal::UnknownKind),
        }
    }
}

// What one record says. Nothing is known of the numbers yet.
#[derive(Clone, Copy)]
pub enum Record {
    Row(Times),
    Request(Request),
    Stop(u32),
}

impl Record {
    // Takes the first record off the bytes, and answers it with the rest. The project wants the bytes named
    // in a pattern, and a `TryFrom` has no rest to answer.
    pub(crate) fn split(bytes: &[u8]) -> Result<(Record, &[u8]), Refusal>
        requires { 0 < length bytes.now }
        ensures { Split bytes.now result }
    {
        let kind = Kind::try_from(bytes[0])?;
        match (kind, bytes) {
            (Kind::Row, [_, c0, c1, d0, d1, t0, t1, rest @ ..]) => {
                let cost = u16::from_le_bytes([*c0, *c1]);
                let deadline = u16::from_le_bytes([*d0, *d1]);
                let period = u16::from_le_bytes([*t0, *t1]);
                Ok((
                    Record::Row(Times {
                        cost,
                        deadline,
                        period,
                    }),
                    rest,
                ))
            }
            (Kind::Request, [_, a0, a1, a2, a3, n0, n1, t0, t1, rest @ ..]) => {
                let arrival = u32::from_le_bytes([*a0, *a1, *a2, *a3]);
                let number = u16::from_le_bytes([*n0, *n1]);
                let ticks = u16::from_le_bytes([*t0, *t1]);
                Ok((
                    Record::Request(Request {
                        arrival,
                        number,
                        ticks,
                    }),
                    rest,
                ))
            }
            (Kind::Stop, [_, s0, s1, s2, s3, rest @ ..]) => Ok((
                Record::Stop(u32::from_le_bytes([*s0, *s1, *s2, *s3])),
                rest,
            )),
            _ => Err(Refusal::EndInsideRecord),
        }
    }
}

// As the product lists it: row,1,3,4 or request,3,7,2 or stop,12.
impl fmt::Display for Record {
    ghost output = { λ x. Some (record_text x) };

    fn fmt<W: fmt::Write>(&self, f: &mut fmt::Formatter<W>) -> fmt::Result {
        match *self {
            Record::Row(
                Times {
                    cost,
                    deadline,
                    period,
                },
            ) => write!(f, "row,{cost},{deadline},{period}"),
            Record::Request(
                Request {
                    arrival,
                    number,
                    ticks,
                },
            ) => write!(f, "request,{arrival},{number},{ticks}"),
            Record::Stop(ticks) => write!(f, "stop,{ticks}"),
        }
    }
}

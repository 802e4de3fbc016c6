// Requests, as pilots mark them in the air.
ghost use Rattle.model.specs.Requests.{Checked};

use crate::refusal::Refusal;

// The most ticks that a request may ask for.
const MOST_TICKS: u16 = 60_000;

// A single request: so many ticks of work, handed in at the tick `arrival`. An aperiodic job.
#[derive(Clone, Copy, Debug, PartialEq, Eq)]
pub struct Request {
    pub arrival: u32,
    // by which its pilot knows it
    pub number: u16,
    pub ticks: u16,
}

impl Request {
    // Whether it may ask for so many ticks; if not, refusal 10.
    pub fn check(&self) -> Result<(), Refusal>
        ensures { Checked self.now result }
    {
        if (1..=MOST_TICKS).contains(&self.ticks) {
            Ok(())
        } else {
            Err(Refusal::RequestOutsideLimits)
        }
    }
}

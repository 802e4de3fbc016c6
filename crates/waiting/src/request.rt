// Requests, while they wait and when they are finished.
ghost use Rattle.std.specs.Prelude.{◌≡◌, ◌≤◌};
ghost use Rattle.waiting.specs.Requests.{fresh, given, finished_by};

use model::request::Request;

// A request that waits: an aperiodic job that has been handed in and has execution time left.
#[derive(Clone, Copy, Debug, PartialEq, Eq)]
pub struct WaitingRequest {
    // by which its pilot knows it
    pub number: u16,
    // the tick at which it was handed in
    pub arrival: u32,
    // the first tick that it was served, if any
    pub started: Option<u32>,
    // the ticks that it still asks for
    pub left: u16,
}

// A request as it is put: no tick has been given to it.
impl From<Request> for WaitingRequest {
    ghost from_gives = { λ request waiting. waiting ≡ fresh request };

    fn from(request: Request) -> WaitingRequest {
        WaitingRequest {
            number: request.number,
            arrival: request.arrival,
            started: None,
            left: request.ticks,
        }
    }
}

impl WaitingRequest {
    // What stands where no request has been put.
    pub(crate) const UNUSED: WaitingRequest = WaitingRequest {
        number: 0,
        arrival: 0,
        started: None,
        left: 0,
    };

    // The request after this tick was given to it.
    pub(crate) fn after_tick(self, tick: u32) -> WaitingRequest
        requires { 1 ≤ self.left }
        ensures { result ≡ given tick self }
    {
        WaitingRequest {
            started: Some(self.started.unwrap_or(tick)),
            left: self.left - 1,
            ..self
        }
    }

    // What is handed back of the request if this tick was its last.
    pub(crate) fn hand_back(self, tick: u32) -> FinishedRequest
        ensures { result ≡ finished_by tick self }
    {
        FinishedRequest {
            number: self.number,
            arrival: self.arrival,
            started: self.started.unwrap_or(tick),
        }
    }
}

// A request that has had its last tick.
#[derive(Clone, Copy, Debug, PartialEq, Eq)]
pub struct FinishedRequest {
    pub number: u16,
    pub arrival: u32,
    // the first tick that it was served
    pub started: u32,
}

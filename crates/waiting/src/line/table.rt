// What every waiting order does alike with its line.
ghost use Rattle.std.specs.Prelude.{◌≡◌, ◌<◌, [], length, Some};
ghost use Rattle.waiting.specs.Lines.{requests_of, Put, Served};
ghost use Rattle.waiting.specs.Requests.{fresh};

use super::Line;
use crate::request::{FinishedRequest, WaitingRequest};
use model::refusal::Refusal;
use model::request::Request;
use model::slots::Slots;

impl Line {
    // A line in which nobody waits.
    pub(crate) fn new() -> Line
        ensures { requests_of result ≡ [] }
    {
        Line {
            requests: Slots::new(WaitingRequest::UNUSED),
        }
    }

    // The requests that wait, the earliest put first.
    pub(crate) fn requests(&self) -> &[WaitingRequest]
        ensures { result.now ≡ requests_of self.now }
    {
        self.requests.as_slice()
    }

    // Puts a request behind the others, or refuses with 10 or 11.
    pub(crate) fn put(&mut self, request: Request) -> Result<(), Refusal>
        ensures { Put (requests_of self.old) (fresh request) result (requests_of self.new) }
    {
        request.check()?;
        self.requests
            .push(WaitingRequest::from(request))
            .map_err(|_| Refusal::LineFull)
    }

    // Gives the tick to the request at this place, and hands it back if that was its last.
    pub(crate) fn serve_at(&mut self, place: usize, tick: u32) -> Option<FinishedRequest>
        requires { place < length (requests_of self.old) }
        ensures { Served (requests_of self.old) (Some place) tick result (requests_of self.new) }
    {
        let request = self.requests()[place];
        if request.left > 1 {
            self.requests.replace(place, request.after_tick(tick));
            None
        } else {
            self.requests.remove(place);
            Some(request.hand_back(tick))
        }
    }

    // Nobody waits any more.
    pub(crate) fn clear(&mut self)
        ensures { requests_of self.new ≡ [] }
    {
        self.requests.clear();
    }
}

// The line: the requests that wait, in order of submission.
ghost use Rattle.std.specs.Prelude.{All};
ghost use Rattle.model.specs.Slots.{items_of};
ghost use Rattle.waiting.specs.Requests.{Unfinished};

use crate::request::WaitingRequest;
use model::slots::Slots;

mod table;

// The most requests that wait.
const MOST_WAITING: usize = 64;

// At most sixty-four requests, the earliest put first.
#[derive(Drop)]
pub(crate) struct Line {
    requests: Slots<WaitingRequest, MOST_WAITING>,
    ghost unfinished: { All Unfinished (items_of requests) },
}

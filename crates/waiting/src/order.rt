// Waiting orders: who waits, and whose turn it is.
ghost use Rattle.std.specs.Prelude.{◌≡◌, ℕ, ◌≤◌, List, [], length, Option as Maybe, OnErr, All};
ghost use Rattle.waiting.specs.declared.request.WaitingRequest.{WaitingRequest as Waits};
ghost use Rattle.waiting.specs.Lines.{PickedFrom, Put, Served};
ghost use Rattle.waiting.specs.Requests.{fresh, Unfinished};

use crate::request::FinishedRequest;
use model::refusal::Refusal;
use model::request::Request;

// A waiting order: the queue of the aperiodic requests with its queueing discipline. Its meaning is the
// list of those who wait, in order of submission, and the place of that list which is picked. Only the
// picked place is up to the order; everything else is fixed here.
pub trait WaitingOrder {
    // who waits, in order of submission
    ghost waiting: { Self → List Waits };

    // the place of that list which is served next
    ghost picked: { Self → Maybe ℕ };

    // at most sixty-four wait
    ghost few: { (s : Self) → length (waiting s) ≤ 64 };

    // each asks for at least one tick
    ghost unfinished: { (s : Self) → All Unfinished (waiting s) };

    // a place is picked exactly if somebody waits, and it is a place of the list
    ghost within: { (s : Self) → PickedFrom (waiting s) (picked s) };

    // Puts a request behind the others, or refuses with 10 or 11.
    fn put(&mut self, request: Request) -> Result<(), Refusal>
        ensures line { Put (waiting self.old) (fresh request) result (waiting self.new) }
        ensures kept { OnErr result (picked self.new ≡ picked self.old) };

    // The place that is served next, counted from 0, or none if nobody waits.
    fn pick(&self) -> Option<usize>
        ensures { result ≡ picked self.now };

    // Gives the tick to the picked request, and hands it back if that was its last.
    fn serve(&mut self, tick: u32) -> Option<FinishedRequest>
        ensures { Served (waiting self.old) (picked self.old) tick result (waiting self.new) };

    // Nobody waits any more.
    fn clear(&mut self)
        ensures { waiting self.new ≡ [] };
}

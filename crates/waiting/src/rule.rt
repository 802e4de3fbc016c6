// Rules by which one of those who wait is picked: all in which two waiting orders differ.
ghost use Rattle.std.specs.Prelude.{◌≡◌, ℕ, List, Option as Maybe};
ghost use Rattle.waiting.specs.declared.request.WaitingRequest.{WaitingRequest as Waits};
ghost use Rattle.waiting.specs.Laws.{front_within, shortest_within};
ghost use Rattle.waiting.specs.Lines.{PickedFrom};
ghost use Rattle.waiting.specs.Rules.{front, Front, shortest, Shortest};

use crate::request::WaitingRequest;

// How one of those who wait is picked: a queueing discipline.
pub trait PickRule {
    // the place that is picked of this list
    ghost picks: { Self → List Waits → Maybe ℕ };

    // a place is picked exactly if somebody waits, and it is a place of the list
    ghost within: { (s : Self) (line : List Waits) → PickedFrom line (picks s line) };

    // The place that is picked, counted from 0, or none if nobody waits.
    fn pick(&self, line: &[WaitingRequest]) -> Option<usize>
        ensures { result ≡ picks self.now line.now };
}

// Who was put first is served first.
#[derive(Clone, Copy)]
pub struct FirstCome;

impl PickRule for FirstCome {
    ghost picks = { λ _ line. front line };

    ghost within = { λ _ line. front_within line };

    fn pick(&self, line: &[WaitingRequest]) -> Option<usize>
        ensures place { result ≡ front line.now }
        ensures first { Front line.now result }
    {
        line.first().map(|_| 0)
    }
}

// Who has the fewest ticks left is served first, and of several such who was put first.
#[derive(Clone, Copy)]
pub struct ShortestLeft;

impl PickRule for ShortestLeft {
    ghost picks = { λ _ line. shortest line };

    ghost within = { λ _ line. shortest_within line };

    fn pick(&self, line: &[WaitingRequest]) -> Option<usize>
        ensures place { result ≡ shortest line.now }
        ensures least { Shortest line.now result }
    {
        line.iter()
            .enumerate()
            .min_by_key(|(_, request)| request.left)
            .map(|(place, _)| place)
    }
}

// Waiting orders by a rule: the line that all of them share, and the rule by which each picks.
ghost use Rattle.std.specs.Prelude.{◌≡◌, [], OnErr};
ghost use Rattle.waiting.specs.Laws.{few_wait, all_unfinished};
ghost use Rattle.waiting.specs.Lines.{Put, Served};
ghost use Rattle.waiting.specs.Orders.{waits};
ghost use Rattle.waiting.specs.Requests.{fresh};

use crate::line::Line;
use crate::order::WaitingOrder;
use crate::request::FinishedRequest;
use crate::rule::{FirstCome, PickRule, ShortestLeft};
use model::refusal::Refusal;
use model::request::Request;

// A waiting order that picks by the rule R. A new order costs a rule and nothing else.
#[derive(Drop)]
pub struct OrderBy<R> {
    line: Line,
    rule: R,
}

// First come, first served.
pub type ArrivalOrder = OrderBy<FirstCome>;

// The shortest remaining time first.
pub type ShortestLeftOrder = OrderBy<ShortestLeft>;

impl<R: PickRule> OrderBy<R> {
    // Nobody waits, and this rule will pick.
    pub fn new(rule: R) -> OrderBy<R>
        ensures nobody { waits result ≡ [] }
        ensures rule { result.rule ≡ rule }
    {
        OrderBy {
            line: Line::new(),
            rule,
        }
    }
}

// Each call does what the trait says, and the rule stays. Each clause says so, since an invariant cannot
// speak of the value before.
impl<R: PickRule> WaitingOrder for OrderBy<R> {
    ghost waiting = { waits };

    ghost picked = { λ s. R.picks s.rule (waits s) };

    ghost few = { λ s. few_wait s.line };

    ghost unfinished = { λ s. all_unfinished s.line };

    ghost within = { λ s. R.PickRule.within s.rule (waits s) };

    fn put(&mut self, request: Request) -> Result<(), Refusal>
        ensures line { Put (waits self.old) (fresh request) result (waits self.new) }
        ensures kept { OnErr result (R.picks self.new.rule (waits self.new) ≡ R.picks self.old.rule (waits self.old)) }
        ensures rule { self.new.rule ≡ self.old.rule }
    {
        self.line.put(request)
    }

    fn pick(&self) -> Option<usize>
        ensures { result ≡ R.picks self.now.rule (waits self.now) }
    {
        self.rule.pick(self.line.requests())
    }

    fn serve(&mut self, tick: u32) -> Option<FinishedRequest>
        ensures line { Served (waits self.old) (R.picks self.old.rule (waits self.old)) tick result (waits self.new) }
        ensures rule { self.new.rule ≡ self.old.rule }
    {
        let place = self.pick()?;
        self.line.serve_at(place, tick)
    }

    fn clear(&mut self)
        ensures line { waits self.new ≡ [] }
        ensures rule { self.new.rule ≡ self.old.rule }
    {
        self.line.clear()
    }
}

// A long random run of calls, beside a plain model of each order.
use crate::latest::LastCome;
use model::refusal::Refusal;
use model::request::Request;
use std::alloc::{AllocError, Global};
use std::process::Abort;
use std::test::Fail;
use waiting::calls::{Answer, Call, Exchange, make_calls};
use waiting::order::WaitingOrder;
use waiting::order_by::OrderBy;
use waiting::request::{FinishedRequest, WaitingRequest};
use waiting::rule::{FirstCome, ShortestLeft};

// The calls of the run.
const CALLS: u32 = 4_000;

// A waiting order once more: a list that grows and shrinks, with no table of slots.
#[derive(Drop)]
struct Model<P> {
    line: Vec<WaitingRequest>,
    // the place of the list that is served next
    pick: P,
}

// Who calls the rule requires that it may be called: the check asks that of each such function.
impl<P: Fn(&[WaitingRequest]) -> Option<usize>> Model<P> {
    fn put(&mut self, request: Request) -> Result<Answer, AllocError> {
        if request.ticks == 0 || request.ticks > 60_000 {
            return Ok(Answer::Put(Err(Refusal::RequestOutsideLimits)));
        }
        if self.line.len() == 64 {
            return Ok(Answer::Put(Err(Refusal::LineFull)));
        }
        // field by field: the model calls no function of the code under test
        self.line.push(WaitingRequest {
            number: request.number,
            arrival: request.arrival,
            started: None,
            left: request.ticks,
        })?;
        Ok(Answer::Put(Ok(())))
    }

    fn serve(&mut self, tick: u32) -> Answer
        requires { (pick : _) (line : _) → P.pre pick line }
    {
        let place = (self.pick)(self.line.as_slice());
        let finished = place.and_then(|place| self.serve_at(place, tick));
        Answer::Serve { place, finished }
    }

    fn serve_at(&mut self, place: usize, tick: u32) -> Option<FinishedRequest> {
        let request = self.line.get_mut(place)?;
        let started = *request.started.get_or_insert(tick);
        request.left = request.left.saturating_sub(1);
        if request.left > 0 {
            return None;
        }
        let done = self.line.remove(place);
        Some(FinishedRequest {
            number: done.number,
            arrival: done.arrival,
            started,
        })
    }

    fn answer(&mut self, call: Call) -> Result<Answer, AllocError>
        requires { (pick : _) (line : _) → P.pre pick line }
    {
        match call {
            Call::Put(request) => self.put(request),
            Call::Serve { tick } => Ok(self.serve(tick)),
        }
    }
}

// The first place with the fewest ticks left: the least number first, and then where it stands.
fn fewest_left(line: &[WaitingRequest]) -> Option<usize> {
    let fewest = line.iter().map(|request| request.left).min()?;
    line.iter().position(|request| request.left == fewest)
}

// A linear congruential generator; its upper bits are the better ones.
#[derive(Drop)]
struct Chance {
    state: u32,
}

impl Chance {
    // A number below `end`, or 0.
    fn below(&mut self, end: u16) -> u16 {
        self.state = self
            .state
            .wrapping_mul(1_664_525)
            .wrapping_add(1_013_904_223);
        let upper = (self.state >> 16) as u16;
        upper.checked_rem(end).unwrap_or(0)
    }
}

// A call at this tick. The line fills in the first half of every 500 ticks and empties in the second.
fn call_at(tick: u32, chance: &mut Chance) -> Call {
    let puts = if tick % 500 < 250 { 6 } else { 1 };
    if chance.below(8) >= puts {
        return Call::Serve { tick };
    }
    let ticks = match chance.below(40) {
        0 => 0,
        1 => 60_001,
        2 => 65_535,
        n => n % 2 + 1,
    };
    Call::Put(Request {
        arrival: tick,
        number: chance.below(100),
        ticks,
    })
}

fn calls(heap: Global) -> Result<Vec<Exchange>, AllocError> {
    let mut chance = Chance { state: 20_261_118 };
    let unanswered = |tick| Exchange {
        call: call_at(tick, &mut chance),
        answer: Answer::Put(Ok(())),
    };
    (0..CALLS).map(unanswered).collect(heap)
}

// That the run has come to every kind of answer often.
fn comes_to_every_kind(rt: &impl Abort, run: &[Exchange]) {
    let times = |answer: Answer| run.iter().filter(|made| made.answer == answer).count();
    let full = times(Answer::Put(Err(Refusal::LineFull)));
    let outside = times(Answer::Put(Err(Refusal::RequestOutsideLimits)));
    let nobody = times(Answer::Serve {
        place: None,
        finished: None,
    });
    let handed_back = |made: &&Exchange| matches!(
        made.answer,
        Answer::Serve {
            finished: Some(_),
            ..
        }
    );
    let finished = run.iter().filter(handed_back).count();
    assert!(rt; full > 50, "sixty-four wait");
    assert!(rt; outside > 50, "ticks outside their limits");
    assert!(rt; nobody > 50, "nobody waits");
    assert!(rt; finished > 500, "a last tick");
}

// Makes the calls of the run, and compares each answer with that of a model which picks like this.
fn agrees<W: WaitingOrder, P: Fn(&[WaitingRequest]) -> Option<usize>>(
    rt: &impl Abort,
    heap: Global,
    order: &mut W,
    pick: P,
) -> Result<(), Fail>
    requires { (pick : _) (line : _) → P.pre pick line }
{
    let mut run = calls(heap)?;
    make_calls(order, run.as_mut_slice());
    let mut model = Model {
        line: Vec::new(heap),
        pick,
    };
    for exchange in run.iter() {
        assert_eq!(rt; exchange.answer, model.answer(exchange.call)?);
    }
    comes_to_every_kind(rt, run.as_slice());
    Ok(())
}

#[test]
fn a_random_run(rt: HostRuntime) -> Result<(), Fail> {
    let heap = rt.alloc();
    agrees(&rt, heap, &mut OrderBy::new(FirstCome), |line| {
        (!line.is_empty()).then_some(0)
    })?;
    agrees(&rt, heap, &mut OrderBy::new(ShortestLeft), fewest_left)?;
    agrees(&rt, heap, &mut OrderBy::new(LastCome), |line| {
        line.len().checked_sub(1)
    })
}

// Lists of calls to a waiting order, whichever it is.
ghost use Rattle.std.specs.Prelude.{◌≡◌, map};
ghost use Rattle.waiting.specs.Transcripts.{call_of, Answered, Transcript, TicksKept, RequestsKept};

use crate::order::WaitingOrder;
use crate::request::FinishedRequest;
use model::refusal::Refusal;
use model::request::Request;

// A call that changes who waits. It is data and no closure, since the theorems on transcripts speak of
// any list of calls.
#[derive(Clone, Copy, Debug, PartialEq, Eq)]
pub enum Call {
    Put(Request),
    Serve { tick: u32 },
}

// What such a call came to.
#[derive(Clone, Copy, Debug, PartialEq, Eq)]
pub enum Answer {
    // the request was taken, or why not
    Put(Result<(), Refusal>),
    // the place that was served, if anybody waited, and the request that then had its last tick
    Serve {
        place: Option<usize>,
        finished: Option<FinishedRequest>,
    },
}

// A call and its answer.
#[derive(Clone, Copy, Debug, PartialEq, Eq)]
pub struct Exchange {
    pub call: Call,
    pub answer: Answer,
}

// Makes the call.
fn make_call<W: WaitingOrder>(order: &mut W, call: Call) -> Answer
    ensures { Answered (W.waiting order.old) call result (W.waiting order.new) }
{
    match call {
        Call::Put(request) => Answer::Put(order.put(request)),
        Call::Serve { tick } => {
            let place = order.pick();
            let finished = order.serve(tick);
            Answer::Serve { place, finished }
        }
    }
}

// Makes the calls in turn and fills in their answers.
pub fn make_calls<W: WaitingOrder>(order: &mut W, transcript: &mut [Exchange])
    ensures calls { map call_of transcript.new ≡ map call_of transcript.old }
    ensures answered { Transcript (W.waiting order.old) transcript.new (W.waiting order.new) }
    ensures ticks { TicksKept (W.waiting order.old) transcript.new (W.waiting order.new) }
    ensures requests { RequestsKept (W.waiting order.old) transcript.new (W.waiting order.new) }
{
    for exchange in transcript.iter_mut() {
        exchange.answer = make_call(order, exchange.call);
    }
}

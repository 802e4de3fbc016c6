// Waiting orders at their edges, as tables of calls with the answers that are wanted.
use crate::latest::LastCome;
use model::refusal::Refusal;
use model::request::Request;
use std::alloc::Global;
use std::process::Abort;
use std::test::Fail;
use waiting::calls::{Answer, Call, Exchange, make_calls};
use waiting::order::WaitingOrder;
use waiting::order_by::OrderBy;
use waiting::request::FinishedRequest;
use waiting::rule::{FirstCome, ShortestLeft};

fn exchange(call: Call, answer: Answer) -> Exchange {
    Exchange { call, answer }
}

fn request(number: u16, arrival: u32, ticks: u16) -> Request {
    Request {
        arrival,
        number,
        ticks,
    }
}

// A put at the tick that is its number, and what is wanted of it.
fn put(number: u16, ticks: u16, wanted: Result<(), Refusal>) -> Exchange {
    let call = Call::Put(request(number, u32::from(number), ticks));
    exchange(call, Answer::Put(wanted))
}

fn taken(number: u16, ticks: u16) -> Exchange {
    put(number, ticks, Ok(()))
}

fn refused(ticks: u16) -> Exchange {
    put(1, ticks, Err(Refusal::RequestOutsideLimits))
}

fn serve(tick: u32, place: Option<usize>, finished: Option<FinishedRequest>) -> Exchange {
    exchange(Call::Serve { tick }, Answer::Serve { place, finished })
}

// A serve that finds nobody.
fn idle(tick: u32) -> Exchange {
    serve(tick, None, None)
}

// A serve at this place that is not the request's last.
fn served(tick: u32, place: usize) -> Exchange {
    serve(tick, Some(place), None)
}

// A serve at this place after which the request of this number, first served at `started`, is handed back.
fn last(tick: u32, place: usize, number: u16, started: u32) -> Exchange {
    let finished = FinishedRequest {
        number,
        arrival: u32::from(number),
        started,
    };
    serve(tick, Some(place), Some(finished))
}

// Makes the table's calls, and compares each answer with the one that is wanted.
fn run<W: WaitingOrder>(
    rt: &impl Abort,
    heap: Global,
    order: &mut W,
    table: &[Exchange],
) -> Result<(), Fail> {
    let unanswered = |wanted: &Exchange| exchange(wanted.call, Answer::Put(Ok(())));
    let mut calls: Vec<Exchange> = table.iter().map(unanswered).collect(heap)?;
    make_calls(order, calls.as_mut_slice());
    assert_eq!(rt; calls.as_slice(), table);
    Ok(())
}

#[test]
fn ticks_at_their_limits(rt: HostRuntime) -> Result<(), Fail> {
    let table = [
        idle(0),
        refused(0),
        idle(1),
        taken(1, 1),
        refused(0),
        taken(2, 60_000),
        refused(60_001),
        refused(65_535),
        last(3, 0, 1, 3),
        served(4, 0),
    ];
    run(&rt, rt.alloc(), &mut OrderBy::new(FirstCome), &table)?;
    run(&rt, rt.alloc(), &mut OrderBy::new(ShortestLeft), &table)
}

#[test]
fn who_is_served_next(rt: HostRuntime) -> Result<(), Fail> {
    let heap = rt.alloc();
    // who was put first, and a first served tick that stays
    let table = [
        taken(1, 3),
        served(10, 0),
        taken(2, 1),
        served(20, 0),
        last(30, 0, 1, 10),
        last(4_294_967_295, 0, 2, 4_294_967_295),
        idle(0),
    ];
    run(&rt, heap, &mut OrderBy::new(FirstCome), &table)?;
    // the fewest ticks left: taken out of the last, a middle and the first place; the earliest of equals
    let table = [
        taken(1, 3),
        taken(2, 2),
        taken(3, 2),
        taken(4, 1),
        last(10, 3, 4, 10),
        served(11, 1),
        taken(5, 1),
        last(12, 1, 2, 11),
        last(13, 2, 5, 13),
        served(14, 1),
        last(15, 1, 3, 14),
        served(16, 0),
        taken(6, 2),
        served(17, 0),
        last(18, 0, 1, 16),
        served(19, 0),
        last(20, 0, 6, 19),
        idle(21),
    ];
    run(&rt, heap, &mut OrderBy::new(ShortestLeft), &table)?;
    // an order of the tests' own
    let table = [
        taken(1, 2),
        taken(2, 2),
        served(10, 1),
        last(11, 1, 2, 10),
        served(12, 0),
        taken(3, 1),
        last(13, 1, 3, 13),
        last(14, 0, 1, 12),
        idle(15),
    ];
    run(&rt, heap, &mut OrderBy::new(LastCome), &table)
}

#[test]
fn equal_numbers_wait_side_by_side(rt: HostRuntime) -> Result<(), Fail> {
    let table = [
        taken(7, 2),
        taken(7, 1),
        taken(7, 2),
        served(10, 0),
        last(11, 0, 7, 10),
        last(12, 0, 7, 12),
        served(13, 0),
        last(14, 0, 7, 13),
        idle(15),
    ];
    run(&rt, rt.alloc(), &mut OrderBy::new(FirstCome), &table)
}

// Puts sixty-four requests of two ticks each.
fn fill<W: WaitingOrder>(rt: &impl Abort, order: &mut W) {
    for number in 0..64 {
        assert_eq!(rt; order.put(request(number, 5, 2)), Ok(()));
    }
}

fn sixty_four_at_most<W: WaitingOrder>(rt: &impl Abort, order: &mut W) {
    assert_eq!(rt; order.pick(), None);
    fill(rt, order);
    assert_eq!(rt; order.pick(), Some(0));
    assert_eq!(rt; order.pick(), Some(0));
    assert_eq!(rt; order.put(request(64, 5, 1)), Err(Refusal::LineFull));
    // tested before the room
    assert_eq!(rt;
        order.put(request(64, 5, 0)),
        Err(Refusal::RequestOutsideLimits)
    );
    assert_eq!(rt;
        order.put(request(64, 5, 60_001)),
        Err(Refusal::RequestOutsideLimits)
    );
    assert_eq!(rt; order.serve(6), None);
    assert_eq!(rt; order.put(request(64, 6, 1)), Err(Refusal::LineFull));
    let finished = FinishedRequest {
        number: 0,
        arrival: 5,
        started: 6,
    };
    assert_eq!(rt; order.serve(7), Some(finished));
    assert_eq!(rt; order.put(request(64, 7, 60_000)), Ok(()));
    assert_eq!(rt; order.put(request(65, 7, 1)), Err(Refusal::LineFull));
    // all that waits goes, and the order is as new
    order.clear();
    assert_eq!(rt; order.pick(), None);
    assert_eq!(rt; order.serve(8), None);
    fill(rt, order);
    assert_eq!(rt; order.serve(9), None);
    assert_eq!(rt;
        order.serve(10),
        Some(FinishedRequest {
            started: 9,
            ..finished
        })
    );
}

#[test]
fn sixty_four_wait(rt: HostRuntime) {
    sixty_four_at_most(&rt, &mut OrderBy::new(FirstCome));
    sixty_four_at_most(&rt, &mut OrderBy::new(ShortestLeft));
}

// Rows and drafts at their limits.
use model::draft::Draft;
use model::row::{Row, Times};

fn numbers(cost: u16, deadline: u16, period: u16) -> Times {
    Times {
        cost,
        deadline,
        period,
    }
}

// Adds the row of these numbers; a refusal is answered by its number.
fn add(draft: &mut Draft, times: Times) -> Result<(), u8> {
    draft.add(times).map_err(|refusal| refusal.number())
}

#[test]
fn rows_at_their_limits(rt: HostRuntime) {
    let table = [
        (1, 1, 1, true),
        (1, 60_000, 60_000, true),
        (60_000, 60_000, 60_000, true),
        (0, 1, 1, false),
        (2, 1, 4, false),
        (1, 5, 4, false),
        (1, 1, 60_001, false),
        (1, 60_001, 60_001, false),
        (0, 0, 0, false),
        (65_535, 65_535, 65_535, false),
    ];
    for (cost, deadline, period, good) in table {
        assert_eq!(rt; Row::new(numbers(cost, deadline, period)).is_ok(), good);
    }
}

#[test]
fn a_seventeenth_row_is_refused_before_its_limits(rt: HostRuntime) {
    let mut draft = Draft::new();
    assert_eq!(rt; add(&mut draft, numbers(2, 1, 4)), Err(1));
    assert_eq!(rt; draft.rows().len(), 0);
    for n in 0..16u16 {
        assert_eq!(rt; add(&mut draft, numbers(1, 2, 100 + n)), Ok(()));
        assert_eq!(rt;
            add(&mut draft, numbers(1, 2, 1)),
            if n < 15 { Err(1) } else { Err(2) }
        );
    }
    assert_eq!(rt; add(&mut draft, numbers(1, 2, 2)), Err(2));
    assert_eq!(rt; add(&mut draft, numbers(0, 0, 0)), Err(2));
    assert_eq!(rt; draft.rows().len(), 16);
    for (n, row) in draft.rows().iter().enumerate() {
        assert_eq!(rt; row.period as usize, 100 + n);
    }
}

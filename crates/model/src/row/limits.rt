// Rows from their numbers, and back.
ghost use Rattle.std.specs.Prelude.{◌≡◌};
ghost use Rattle.model.specs.Rows.{times_of, Made};

use super::{Row, Times};
use crate::refusal::Refusal;

// The longest period, in ticks.
const LONGEST_PERIOD: u16 = 60_000;

impl Row {
    // The row 1, 2, 2, which stands where none has been put.
    pub(crate) const UNFILLED: Row = Row {
        cost: 1,
        deadline: 2,
        period: 2,
    };

    // The row of these numbers, or refusal 1 where they break the limits.
    pub fn new(times: Times) -> Result<Row, Refusal>
        ensures { Made times result }
    {
        let Times {
            cost,
            deadline,
            period,
        } = times;
        if 1 <= cost && cost <= deadline && deadline <= period && period <= LONGEST_PERIOD {
            Ok(Row {
                cost,
                deadline,
                period,
            })
        } else {
            Err(Refusal::RowOutsideLimits)
        }
    }
}

impl From<Row> for Times {
    ghost from_gives = { λ row times. times ≡ times_of row };

    fn from(row: Row) -> Times {
        Times {
            cost: row.cost,
            deadline: row.deadline,
            period: row.period,
        }
    }
}

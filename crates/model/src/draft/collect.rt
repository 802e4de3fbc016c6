// Collecting rows in a draft.
ghost use Rattle.std.specs.Prelude.{◌≡◌, [], map};
ghost use Rattle.model.specs.Drafts.{rows_of, Added};
ghost use Rattle.model.specs.Rows.{times_of};

use super::Draft;
use crate::refusal::Refusal;
use crate::row::{Row, Times};
use crate::slots::Slots;

impl Draft {
    // A draft without rows.
    pub fn new() -> Draft
        ensures { rows_of result ≡ [] }
    {
        Draft {
            rows: Slots::new(Row::UNFILLED),
        }
    }

    // Adds the row of these numbers after the others, or refuses with 2 or 1.
    pub fn add(&mut self, times: Times) -> Result<(), Refusal>
        ensures { Added (rows_of self.old) times result (rows_of self.new) }
    {
        // before the numbers are looked at: 2 comes before 1
        if self.rows.is_full() {
            return Err(Refusal::SeventeenthRow);
        }
        let row = Row::new(times)?;
        self.rows.push(row).map_err(|_| Refusal::SeventeenthRow)
    }

    // The rows in order.
    pub fn rows(&self) -> &[Row]
        ensures { map times_of result.now ≡ rows_of self.now }
    {
        self.rows.as_slice()
    }
}

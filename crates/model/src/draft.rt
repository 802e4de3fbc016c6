// A draft: the rows of a table that has not been accepted yet.
use crate::row::Row;
use crate::slots::Slots;

mod collect;

// The most rows that a draft holds.
const MOST_ROWS: usize = 16;

// At most sixteen rows in order, row 1, which has the highest priority, first.
#[derive(Clone, Copy)]
pub struct Draft {
    rows: Slots<Row, MOST_ROWS>,
}

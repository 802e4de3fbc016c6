// A row: the numbers of one periodic control loop.
ghost use Rattle.std.specs.Prelude.{◌≤◌};

mod limits;

// The numbers of a row, in ticks, as they are handed in: nothing is known of them yet.
#[derive(Clone, Copy, Debug, PartialEq, Eq)]
pub struct Times {
    pub cost: u16,
    pub deadline: u16,
    pub period: u16,
}

// A periodic task, in ticks: each of its jobs takes `cost` ticks and is due `deadline` ticks after
// its release, and a job is released every `period` ticks. No value breaks the limits, so it is a type of
// its own beside `Times`, with the fields that a scheduler reads.
#[derive(Clone, Copy, Debug, PartialEq, Eq)]
pub struct Row {
    pub cost: u16,
    pub deadline: u16,
    pub period: u16,
    ghost some: { 1 ≤ cost },
    ghost fits: { cost ≤ deadline },
    ghost within: { deadline ≤ period },
    ghost limit: { period ≤ 60000 },
}

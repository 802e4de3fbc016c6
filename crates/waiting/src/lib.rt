// The line in which requests wait, and the orders in which it is served.
#![tactic(auto)]

pub mod calls;
mod line;
pub mod order;
pub mod order_by;
pub mod request;
pub mod rule;

pub use order::WaitingOrder;
pub use order_by::{ArrivalOrder, OrderBy, ShortestLeftOrder};
pub use request::{FinishedRequest, WaitingRequest};
pub use rule::{FirstCome, PickRule, ShortestLeft};

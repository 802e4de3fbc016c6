// What everything else is built on: rows and drafts of them, requests, lists in fixed memory, and the
// product's refusals.
#![tactic(auto)]

pub mod draft;
pub mod refusal;
pub mod request;
pub mod row;
pub mod slots;

pub use draft::Draft;
pub use refusal::{PlacedRefusal, Refusal};
pub use request::Request;
pub use row::{Row, Times};
pub use slots::Slots;

// Flight files: reading them, refusing what is wrong with its place, and writing them back.
#![tactic(auto)]

pub mod file;
pub mod input;
mod reader;
pub mod reading;
pub mod record;
pub mod writing;

pub use file::FlightFile;
pub use reading::ReadError;
pub use record::{Record, Request};

#![tactic(auto)]

mod lines;
pub mod read;
pub mod reader;
pub mod replay;

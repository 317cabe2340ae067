#![tactic(auto)]

pub mod entry;
pub mod swap;
pub mod table;

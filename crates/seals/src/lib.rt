#![tactic(auto)]

pub mod law;
pub mod seal;

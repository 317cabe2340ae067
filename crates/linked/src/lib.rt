#![tactic(auto)]

pub mod linked;

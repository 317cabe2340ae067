#![tactic(auto)]

pub mod act;
pub mod perform;
mod send;

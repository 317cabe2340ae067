#![tactic(auto)]

pub mod deed;
mod judge;
mod sequences;

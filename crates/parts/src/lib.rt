#![tactic(auto)]

pub mod area;
pub mod buffer;
pub mod instructions;
pub mod rows;

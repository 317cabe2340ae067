#![tactic(auto)]

pub mod decode;
pub mod frame;
pub mod instruction;
mod line;
pub mod refusal;
mod table;

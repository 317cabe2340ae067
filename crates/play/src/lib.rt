#![tactic(auto)]

pub mod call;
pub mod log;
pub mod play;
pub mod wrong_log;

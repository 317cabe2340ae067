#![tactic(auto)]

mod bits;
pub mod flags;
pub mod law;
pub mod locks;
pub mod operation;
pub mod refusal;
pub mod register;
pub mod sr1;

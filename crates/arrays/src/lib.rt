#![tactic(auto)]

pub mod array;
mod bytes;
pub mod dump;
pub mod error;
mod layout;
pub mod memory;

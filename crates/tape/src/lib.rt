#![tactic(auto)]

pub mod answers;
pub mod hex;
pub mod parse;
pub mod record;
pub mod text;

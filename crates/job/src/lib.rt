#![tactic(auto)]

pub mod checked;
pub mod give_up;
pub mod opened;
mod sr1;
pub mod state;

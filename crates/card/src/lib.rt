#![tactic(auto)]

mod act;
mod calls;
pub mod card;
mod carry_out;
mod drive;
mod finish;
mod judge;
mod make;
mod power;
pub mod store_card;

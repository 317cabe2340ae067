#![tactic(auto)]

pub mod calibration;
pub mod compare;
pub mod steps;
pub mod words;

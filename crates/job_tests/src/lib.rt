#![tactic(auto)]

// A job on a small card: each fault at each transaction that can be refused.
#[cfg(test)]
mod bench_card;
#[cfg(test)]
mod fault_tests;
#[cfg(test)]
mod whole;

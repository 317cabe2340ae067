#![tactic(auto)]

#[cfg(test)]
mod linked_tests;
#[cfg(test)]
mod table_tests;

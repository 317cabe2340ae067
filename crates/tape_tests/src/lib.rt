#![tactic(auto)]

#[cfg(test)]
mod tables;
#[cfg(test)]
mod tests;

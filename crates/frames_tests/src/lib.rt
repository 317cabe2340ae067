#![tactic(auto)]

#[cfg(test)]
mod expected;
#[cfg(test)]
mod tests;

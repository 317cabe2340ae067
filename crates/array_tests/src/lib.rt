#![tactic(auto)]

// Memory and dump arrays on examples: what they answer and what their bytes hold then.
#[cfg(test)]
mod answers;
#[cfg(test)]
mod contents;
#[cfg(test)]
mod unfit;

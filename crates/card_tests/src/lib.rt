#![tactic(auto)]

// A small card on examples: every refusal, and the worked points that are not in the list of fixed points.
#[cfg(test)]
mod refusals;
#[cfg(test)]
mod script;
#[cfg(test)]
mod worked_points;

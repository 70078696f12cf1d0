// Trials of plans, from bytes to bytes.
#![tactic(auto)]

#[cfg(test)]
mod tests;

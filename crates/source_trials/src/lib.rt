// Piles of layers at work.
#![tactic(auto)]

#[cfg(test)]
mod tests;

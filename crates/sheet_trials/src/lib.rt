// Trials of the sheet's reader and writer, and of what they answer with.
#![tactic(auto)]

#[cfg(test)]
mod refusals;
#[cfg(test)]
mod sheets;
#[cfg(test)]
mod sizes;
#[cfg(test)]
mod values;

// Surveys at work: steps, runs, notes, reports and lists of requests.
#![tactic(auto)]

#[cfg(test)]
mod tests;

// Surveys: which prices to ask for, until a cheapest base is certain.
#![tactic(auto)]

mod pricing;
mod steps;
mod surveys;
mod tables;
mod updates;

pub use surveys::Survey;

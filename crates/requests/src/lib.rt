// Lists of requests: a survey is made, asked each in turn, and reports.
#![tactic(auto)]

mod carrying;
mod conducting;
mod lists;

pub use carrying::{Request, carry_out};
pub use conducting::{Account, conduct};
pub use lists::carry_out_all;

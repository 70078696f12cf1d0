// Text made of fields and numbers, in memory that is had before the first byte is written.
#![tactic(auto)]

mod values;

pub use values::Writer;

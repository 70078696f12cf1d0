// Layers over any source of prices: one that remembers, and one that limits. A layer is a source again.
#![tactic(auto)]

mod memory;
mod promises;
mod quota;

pub use memory::Memory;
pub use quota::Quota;

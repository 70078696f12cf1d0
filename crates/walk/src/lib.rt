// The walk over the elements by their low ends, and the pair of an open circuit that is priced next.
#![tactic(auto)]

mod cases;
mod choices;
mod ground;
mod progress;
mod walks;

pub use cases::worked_cases_hold;
pub use choices::choose_pair;
use element::MARKS;
pub use progress::Progress;
pub use walks::walk_through;

// How a walk ends: an enum of its own, since neither end is a failure.
#[derive(Clone, Copy)]
pub enum Walk {
    // Every element is taken: the marked ones are kept.
    Settled([bool; MARKS]),
    // The marked circuit is open: the element that closes it does not top it.
    Open([bool; MARKS]),
}

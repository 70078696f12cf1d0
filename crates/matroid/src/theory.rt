ghost use Rattle.std.specs.Prelude.{◌≡◌, true};
ghost use Rattle.matroid.specs.Theorems.{Theory};

// The theorems.
fn prove_theory()
    ensures { Theory }
{}

// What holds in every matroid: its theorems are named by the contract.
pub fn theory_holds() -> bool
    ensures theory { Theory }
    ensures answer { result ≡ true }
{
    prove_theory();
    true
}

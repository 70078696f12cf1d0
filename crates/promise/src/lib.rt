// What a survey promises: weighings, the walk, surveys as values, and the theorems about them. All of it is definitions and proofs.
#![tactic(auto)]

ghost use Rattle.std.specs.Prelude.{◌≡◌, true};
ghost use Rattle.promise.specs.Claims.{Promises};

// The theorems.
fn prove_promise()
    ensures { Promises }
{}

// What holds of every survey, whatever the matroid, the sheet and the calls: it is named by the contract.
pub fn promise_holds() -> bool
    ensures promise { Promises }
    ensures answer { result ≡ true }
{
    prove_promise();
    true
}

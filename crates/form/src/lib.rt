// The form of a sheet: how one is written as bytes, which sheets are legal, and how bytes are checked. All of it is definitions and theorems.
#![tactic(auto)]

ghost use Rattle.std.specs.Prelude.{◌≡◌, true};
ghost use Rattle.form.specs.Theorem.{AcceptsTheWritten, ReadsBack, OneSheet};

// What the elements of a sheet are.
#[derive(Clone, Copy, PartialEq, Eq, Debug)]
pub enum Kind {
    Routes,
    Lots,
    Words,
}

// The letter that an element's line starts with: `k` before a price, `r` before the two ends of a range.
#[derive(Clone, Copy, PartialEq, Eq, Debug)]
pub enum Letter {
    K,
    R,
}

// Bytes are accepted exactly when a legal sheet is written so, and as that one.
pub fn form_holds() -> bool
    ensures accepts { AcceptsTheWritten }
    ensures back { ReadsBack }
    ensures one { OneSheet }
    ensures answer { result ≡ true }
{
    true
}

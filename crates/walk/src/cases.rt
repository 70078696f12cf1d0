ghost use Rattle.std.specs.Prelude.{◌≡◌, true};
ghost use Rattle.promise.specs.Cases.{Worked};

// What the walk and the choice make of the worked cases.
pub fn worked_cases_hold() -> bool
    ensures worked { Worked }
    ensures answer { result ≡ true }
{
    true
}

ghost use Rattle.std.specs.Prelude.{◌<◌};

use element::Price;

// The prices strictly between two ends, of which the low one is below the high one.
#[derive(Clone, Copy, Debug)]
pub struct OpenRange {
    pub(crate) low: Price,
    pub(crate) high: Price,
    ghost proper: { low < high },
}

// One price call.
ghost use Rattle.std.specs.Prelude.{◌≡◌, Some};
ghost use Rattle.fault.specs.Refusals.{told};
ghost use Rattle.promise.specs.Surveys.{tried};
ghost use Rattle.promise.specs.Replies.{step_reply};
ghost use Rattle.source.specs.Supplies.{verdict};
ghost use Rattle.survey.specs.States.{sourced, state};

use crate::tables::Tables;
use element::{Element, Line};
use fault::Fault;
use source::Source;

impl Tables {
    // Asks for the price of the element, and pays it where it lies strictly inside the range.
    pub fn price<S: Source>(
        &mut self,
        source: &mut S,
        element: Element,
        pending: Option<Element>,
    ) -> Result<Line, Fault>
        ensures answer { told Some result ≡ step_reply (S.Source.meaning source.old).depth (S.Source.origin source.new) (tried (state self.old) (sourced S.Source.meaning S.Source.keeps source.old) element pending (verdict (S.Source.meaning source.old) element)).answer }
        ensures survey { state self.new ≡ (tried (state self.old) (sourced S.Source.meaning S.Source.keeps source.old) element pending (verdict (S.Source.meaning source.old) element)).survey }
        ensures source { sourced S.Source.meaning S.Source.keeps source.new ≡ (tried (state self.old) (sourced S.Source.meaning S.Source.keeps source.old) element pending (verdict (S.Source.meaning source.old) element)).source }
    {
        let price = source.price(element)?;
        if !self.entry(element).admits(price) {
            let depth = source.depth().saturating_add(1);
            return Err(Fault::PriceOutside { element, depth });
        }
        self.pay(element, price, pending);
        Ok(Line { element, price })
    }
}

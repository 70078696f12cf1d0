// The matroid of a sheet, made of what its lines say of each element.
ghost use Rattle.std.specs.Prelude.{◌≡◌, ◌≤◌, false, length, map, Ok};
ghost use Rattle.fault.specs.Refusals.{starved, told};
ghost use Rattle.form.specs.Sheets.{most_lines};
ghost use Rattle.kinds.specs.Lists.{lots_of, routes_of, words_of};
ghost use Rattle.sheet.specs.Code.{ones};
ghost use Rattle.plan.specs.Meanings.{cap_of, number_of, tail_of, word_number};

use element::Place;
use fault::Fault;
use kinds::Route;
use lots::Lots;
use routes::Routes;
use sheet::{Body, Lot};
use std::alloc::Global;
use words::Words;

// Routes, each by its two places.
pub fn routes_in(heap: Global, body: &Body<&[u8], Route>) -> Result<Routes, Fault>
    ensures { length body.now.elements.items ≤ most_lines → starved result ≡ false → told (λ m. routes_of m.routes.list.items) result ≡ Ok (routes_of (map tail_of body.now.elements.items)) }
{
    let routes = body.elements.iter().map(|line| line.tail).collect(heap)?;
    Routes::new(routes)
}

// Elements, each by its lot, and the caps of the lots.
pub fn lots_in(heap: Global, body: &Body<Lot, Place>) -> Result<Lots, Fault>
    ensures { length body.now.elements.items ≤ most_lines → starved result ≡ false → told (λ m. lots_of m.lots.list.items m.caps.items) result ≡ Ok (lots_of (map tail_of body.now.elements.items) (map cap_of body.now.places.items)) }
{
    let lots = body.elements.iter().map(|line| line.tail).collect(heap)?;
    let caps = body.places.iter().map(|lot| lot.cap).collect(heap)?;
    Lots::new(lots, caps)
}

// The word as a binary number, of which the last 64 bits count.
fn number_of(letters: &[u8]) -> u64
    ensures { result ≡ word_number (ones letters.now) }
{
    letters.iter().fold(0, |number: u64, letter| {
        number
            .wrapping_mul(2)
            .wrapping_add(u64::from(*letter == b'1'))
    })
}

// Words, each by its number.
pub fn words_in(heap: Global, body: &Body<&[u8], &[u8]>) -> Result<Words, Fault>
    ensures { length body.now.elements.items ≤ most_lines → starved result ≡ false → told (λ m. words_of m.words.list.items) result ≡ Ok (words_of (map number_of body.now.elements.items)) }
{
    let numbers = body
        .elements
        .iter()
        .map(|line| number_of(line.tail))
        .collect(heap)?;
    Words::new(numbers)
}

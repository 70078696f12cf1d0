// What a set of words makes with one more, by elimination: a bit is chosen for each member in turn, and the other words lose it.
ghost use Rattle.std.specs.Prelude.{◌≡◌, ℕ, ◌+◌, ◌<◌, ◌≤◌, true, false, ◌&&◌, ◌||◌, length, if◌then◌else◌, ◌==◌, bit_xor};
ghost use Rattle.element.specs.Marks.{all_marks};
ghost use Rattle.matroid.specs.Questions.{marked};
ghost use Rattle.matroid.specs.Outcomes.{OutcomeOf};
ghost use Rattle.kinds.specs.Kinds.{bit};
ghost use Rattle.kinds.specs.Lists.{at, words_of};
ghost use Rattle.words.specs.Reductions.{word_at, pivot_of, pivot_at, Cleared, FreeBit, ReducedBy, ReducedOr};

use crate::Words;
use element::{Element, MARKS};
use fault::Fault;

// A reduced word, and the bit that its element is taken in by, if it is.
#[derive(Clone, Copy)]
pub(crate) struct Row {
    word: u64,
    pivot: Option<u8>,
}

// The rows of the elements, and the bits that are used.
#[derive(Drop)]
pub(crate) struct Table {
    rows: [Row; MARKS],
    used: [bool; 64],
}

// Whether the word has a one at bit c. (Three functions ask for c < 64: a type for a bit would stand in each row and definition, no plainer.)
fn bit_of(word: u64, c: u8) -> bool
    requires { c < 64 }
    ensures { result ≡ bit word c }
{
    (word >> c) % 2 == 1
}

// The word without its one at bit c.
fn cleared(word: u64, c: u8) -> u64
    requires below { c < 64 }
    requires one { bit word c ≡ true }
    ensures { Cleared word c result }
{
    word ^ (1 << c)
}

// The lowest one of the word at a bit that is not used.
fn free_bit(word: u64, used: &[bool; 64]) -> Option<u8>
    ensures { FreeBit word (marked used.now) result }
{
    (0..64)
        .zip(used)
        .find(|(c, taken)| !**taken && bit_of(word, *c))
        .map(|(c, _)| c)
}

// Adds the other ones of the pivot's word to each word that has a one at bit c.
fn eliminate(rows: &mut [Row], c: u8, rest: u64)
    requires { c < 64 }
    ensures words { (j : ℕ) → j < length rows.old → word_at rows.new j ≡ (if bit (word_at rows.old j) c then bit_xor (word_at rows.old j) rest else word_at rows.old j) }
    ensures pivots { (j : ℕ) → pivot_of rows.new j ≡ pivot_of rows.old j }
{
    for row in rows.iter_mut() {
        row.word ^= if bit_of(row.word, c) { rest } else { 0 };
    }
}

impl Words {
    // The words, none of them taken in.
    fn table(&self) -> Table
        ensures same { (j : ℕ) → j < length self.now.words.list.items → word_at result.rows j ≡ at self.now.words.list.items j }
        ensures none { (j : ℕ) → j < length self.now.words.list.items → pivot_of result.rows j ≡ None }
        ensures free { (c : ℕ) → c < 64 → marked result.used c ≡ false }
    {
        let mut rows = [Row {
            word: 0,
            pivot: None,
        }; MARKS];
        // By index: `array::from_fn` takes half as many instructions again a question, and after `iter_mut().zip(..)` no clause says what was written.
        for (i, word) in self.words.as_slice().iter().enumerate() {
            rows[i].word = *word;
        }
        Table {
            rows,
            used: [false; 64],
        }
    }

    // Takes element i in if it is in the set; refused if the set is dependent.
    fn reduce_by(&self, table: &mut Table, set: &[bool; MARKS], i: usize) -> Result<(), Fault>
        requires below { i < length self.now.words.list.items }
        requires reduced { ReducedBy self.now.words.list.items set.now i table.old }
        ensures { ReducedOr self.now.words.list.items set.now (i + 1) table.new result }
    {
        if !set[i] {
            return Ok(());
        }
        let word = table.rows[i].word;
        let Some(c) = free_bit(word, &table.used) else {
            return Err(Fault::DependentSet);
        };
        let rest = cleared(word, c);
        let n = usize::from(self.words.size());
        eliminate(&mut table.rows[..n], c, rest);
        table.rows[i].pivot = Some(c);
        table.used[usize::from(c)] = true;
        Ok(())
    }

    // Element e, and the members whose bits its word has.
    fn circuit_of(&self, table: &Table, set: &[bool; MARKS], e: usize) -> [bool; MARKS]
        requires below { e < length self.now.words.list.items }
        requires reduced { ReducedBy self.now.words.list.items set.now (length self.now.words.list.items) table.now }
        ensures { (k : ℕ) → k < length self.now.words.list.items → marked result k ≡ (k == e || (marked set.now k && bit (word_at table.now.rows e) (pivot_at table.now.rows k))) }
    {
        let word = table.rows[e].word;
        let mut marks = [false; MARKS];
        let n = usize::from(self.words.size());
        // By index: `array::from_fn` would ask at all places, and after `iter_mut().zip(..)` no clause says what was written.
        for (k, row) in table.rows[..n].iter().enumerate() {
            if let Some(pivot) = row.pivot {
                marks[k] = bit_of(word, pivot);
            }
        }
        marks[e] = true;
        marks
    }

    // What the set makes with the element: nothing, or the circuit; refused if it is dependent.
    pub(crate) fn outcome(
        &self,
        set: &[bool; MARKS],
        element: Element,
    ) -> Result<Option<[bool; MARKS]>, Fault>
        requires below { element < length self.now.words.list.items }
        requires outside { marked set.now element ≡ false }
        ensures { OutcomeOf (words_of self.now.words.list.items) (marked set.now) element result }
    {
        let mut table = self.table();
        // Elements are taken in by number: each changes the rows of all.
        for i in 0..usize::from(self.words.size()) {
            self.reduce_by(&mut table, set, i)?;
        }
        let e = usize::from(element);
        match free_bit(table.rows[e].word, &table.used) {
            Some(_) => Ok(None),
            None => Ok(Some(self.circuit_of(&table, set, e))),
        }
    }
}

// The parts of a plan.
ghost use Rattle.std.specs.Prelude.{◌≡◌};
ghost use Rattle.entry.specs.Entries.{high, low};
ghost use Rattle.fault.specs.Refusals.{refusal, told};
ghost use Rattle.matroid.specs.Questions.{marked};
ghost use Rattle.matroid.specs.Sets.{count, sum};
ghost use Rattle.survey.specs.States.{state};
ghost use Rattle.writer.specs.Written.{Wrote};
ghost use Rattle.plan.specs.Names.{held_names};
ghost use Rattle.plan.specs.Texts.{decided_text, each_kept, finished_text, kept_line, kept_text, stopped_text};

use crate::naming::Named;
use element::{Element, MARKS};
use fault::Fault;
use matroid::Matroid;
use sheet::{Body, put_decimal, put_number, put_price, write_lines};
use survey::Survey;
use writer::Writer;

// A survey of the n elements of a body that has run, and the marks of those that are kept.
#[derive(Drop)]
pub struct Surveyed<'a, P, T, M> {
    pub survey: &'a Survey<M>,
    pub body: &'a Body<P, T>,
    pub n: Element,
    pub marks: &'a [bool; MARKS],
}

impl<'a, P: Drop, T: Named<P> + Drop, M: Matroid + Drop> Surveyed<'a, P, T, M> {
    // How many elements are kept.
    fn count(&self) -> u64
        ensures { result ≡ count self.now.n (marked self.now.marks.now) }
    {
        let marks = self.marks;
        let kept = marks.iter().take(usize::from(self.n)).filter(|kept| **kept);
        // No `From` leads from usize to u64; the cast loses nothing.
        kept.count() as u64
    }

    // The sums of the low and of the high ends of the kept elements.
    fn totals(&self) -> (u64, u64)
        ensures lows { result.0 ≡ sum self.now.n (λ i. low ((state self.now.survey.now.tables).entries i)) (marked self.now.marks.now) }
        ensures highs { result.1 ≡ sum self.now.n (λ i. high ((state self.now.survey.now.tables).entries i)) (marked self.now.marks.now) }
    {
        let mut lows = 0;
        let mut highs = 0;
        for (i, kept) in (0..self.n).zip(self.marks) {
            if *kept {
                let entry = self.survey.entry(i);
                lows += u64::from(entry.low());
                highs += u64::from(entry.high());
            }
        }
        (lows, highs)
    }

    // A kept element: its number, the ends of its entry, and its name.
    fn put_line(&self, writer: &mut Writer, i: Element)
        ensures { Wrote writer.old (kept_line (state self.now.survey.now.tables).entries (held_names T.Named.named self.now.body.now) i) writer.new }
    {
        let entry = self.survey.entry(i);
        put_decimal(writer, i, b' ');
        put_price(writer, entry.low(), b' ');
        put_price(writer, entry.high(), b' ');
        if let Some(line) = self.body.elements.get(usize::from(i)) {
            line.tail.put_named(writer, &self.body.places);
        }
    }

    // The kept elements in rising order, a line each.
    fn put_lines(&self, writer: &mut Writer)
        ensures { Wrote writer.old (each_kept self.now.n (marked self.now.marks.now) (kept_line (state self.now.survey.now.tables).entries (held_names T.Named.named self.now.body.now))) writer.new }
    {
        for (i, kept) in (0..self.n).zip(self.marks) {
            if *kept {
                self.put_line(writer, i);
            }
        }
    }

    // The kept elements, and the sums of their ends.
    fn put_kept(&self, writer: &mut Writer)
        ensures { Wrote writer.old (kept_text self.now.n (state self.now.survey.now.tables).entries (held_names T.Named.named self.now.body.now) (marked self.now.marks.now)) writer.new }
    {
        put_decimal(writer, self.count(), b'\n');
        self.put_lines(writer);
        let (lows, highs) = self.totals();
        writer.put(b"total ");
        put_decimal(writer, lows, b' ');
        put_decimal(writer, highs, b'\n');
    }

    // A run that came to a base.
    fn put_finished(&self, writer: &mut Writer)
        ensures { Wrote writer.old (finished_text self.now.n (state self.now.survey.now.tables) (held_names T.Named.named self.now.body.now) (marked self.now.marks.now)) writer.new }
    {
        writer.put(b"finished\n");
        write_lines(writer, self.survey.ledger());
        self.put_kept(writer);
    }

    // A run that was refused.
    fn put_stopped(&self, writer: &mut Writer, fault: Fault)
        ensures { Wrote writer.old (stopped_text (refusal fault) (state self.now.survey.now.tables)) writer.new }
    {
        writer.put(b"stopped ");
        put_decimal(writer, fault.number(), b' ');
        put_number(writer, fault.place(), b' ');
        put_decimal(writer, fault.depth(), b'\n');
        write_lines(writer, self.survey.ledger());
    }

    // What the survey came to.
    pub fn put(&self, writer: &mut Writer, answer: Result<(), Fault>)
        ensures { Wrote writer.old (decided_text self.now.n (state self.now.survey.now.tables) (held_names T.Named.named self.now.body.now) (told (λ x. x) answer) (marked self.now.marks.now)) writer.new }
    {
        match answer {
            Ok(()) => self.put_finished(writer),
            Err(fault) => self.put_stopped(writer, fault),
        }
    }
}

// Trials of the kinds: their answers for every set of small examples, compared with a trial of every part, and each refusal.
#![tactic(auto)]

#[cfg(test)]
mod tests {
    use element::{Element, MARKS, Place};
    use fault::Fault;
    use kinds::Route;
    use lots::Lots;
    use matroid::{Closing, Matroid};
    use routes::Routes;
    use std::array;
    use std::test::Fail;
    use words::Words;

    // How many elements an example has, and how many sets of them there are. A set is a number, with a one at the bit of each member.
    // It has 32 bits and an index is a usize, so casts lead between them: none loses anything here.
    const N: usize = 6;

    const SETS: usize = 64;

    // An answer to a question about a circuit: a refusal by its number and its place, since the numbers are what is tested.
    type Answer = Result<Closing, (u8, u32)>;

    // An example that says by a trial which sets are independent.
    trait Trial {
        fn independent(&self, set: u32) -> bool;
    }

    #[derive(Drop)]
    struct RouteTrial([Route; N]);

    #[derive(Drop)]
    struct WordTrial([u64; N]);

    // The lot of each element, and the caps.
    #[derive(Drop)]
    struct LotTrial([Place; N], [u32; 3]);

    fn has(set: u32, i: usize) -> bool {
        i < 32 && (set >> (i as u32)) % 2 == 1
    }

    fn told(answer: Result<Closing, Fault>) -> Answer {
        answer.map_err(|fault| (fault.number(), fault.place()))
    }

    // Whether the routes of the part touch the place an even number of times.
    fn evenly_touched(routes: &[Route; N], part: u32, place: Place) -> bool {
        let odd = routes
            .iter()
            .enumerate()
            .filter(|(i, route)| has(part, *i) && (route.from == place) != (route.to == place))
            .count();
        odd % 2 == 0
    }

    fn touches_evenly(routes: &[Route; N], part: u32) -> bool {
        (0..=Place::MAX).all(|place| evenly_touched(routes, part, place))
    }

    // Whether the words of the part have an even number of ones at every bit.
    fn cancels(words: &[u64; N], part: u32) -> bool {
        words
            .iter()
            .enumerate()
            .filter(|(i, _)| has(part, *i))
            .fold(0, |sum, (_, word)| sum ^ *word)
            == 0
    }

    fn members_in(lots: &[Place; N], set: u32, lot: Place) -> usize {
        lots.iter()
            .enumerate()
            .filter(|(i, other)| has(set, *i) && **other == lot)
            .count()
    }

    impl Trial for RouteTrial {
        fn independent(&self, set: u32) -> bool {
            !(1..SETS as u32).any(|part| part & set == part && touches_evenly(&self.0, part))
        }
    }

    impl Trial for WordTrial {
        fn independent(&self, set: u32) -> bool {
            !(1..SETS as u32).any(|part| part & set == part && cancels(&self.0, part))
        }
    }

    impl Trial for LotTrial {
        fn independent(&self, set: u32) -> bool {
            (0..=Place::MAX).all(|lot| {
                let cap = self.1.get(usize::from(lot)).copied().unwrap_or(0);
                members_in(&self.0, set, lot) <= cap as usize
            })
        }
    }

    // Which sets are independent.
    fn independent_sets<T: Trial>(trial: &T) -> [bool; SETS] {
        array::from_fn(|set| trial.independent((set % SETS) as u32))
    }

    // The first dependent part: all its smaller parts come before it, so it is a circuit.
    fn first_dependent(sets: &[bool; SETS], all: u32) -> u32 {
        (0..SETS as u32)
            .zip(sets)
            .find(|(part, independent)| *part & all == *part && !**independent)
            .map_or(0, |(part, _)| part)
    }

    fn with(set: u32, e: usize) -> u32 {
        if e < N { set | (1 << (e as u32)) } else { set }
    }

    fn expected(sets: &[bool; SETS], set: u32, e: usize) -> Answer {
        if has(set, e) {
            return Err((15, (e % N) as u32));
        }
        if !sets[set as usize % SETS] {
            return Err((16, 0));
        }
        if sets[with(set, e) as usize % SETS] {
            Ok(Closing::Independent)
        } else {
            Ok(Closing::Circuit)
        }
    }

    fn marks_of(set: u32) -> [bool; MARKS] {
        array::from_fn(|i| has(set, i))
    }

    // Whether the marks show the set.
    fn shows(marks: &[bool; MARKS], set: u32) -> bool {
        marks
            .iter()
            .enumerate()
            .all(|(i, mark)| *mark == has(set, i))
    }

    // Whether the answer about set and element is the expected one, and the marks show the circuit or are as before.
    fn agrees_at<M: Matroid>(matroid: &M, sets: &[bool; SETS], set: u32, e: usize) -> bool {
        let before = 0xaaaa_aaaa;
        let members = marks_of(set);
        let mut marks = marks_of(before);
        let got = told(matroid.circuit(&members, (e % N) as Element, &mut marks));
        let shown = match got {
            Ok(Closing::Circuit) => first_dependent(sets, with(set, e)),
            _ => before,
        };
        got == expected(sets, set, e) && shows(&marks, shown)
    }

    // Whether the matroid answers every question as the trial of every part does.
    fn agrees<M: Matroid, T: Trial>(matroid: &M, trial: &T) -> bool {
        let sets = independent_sets(trial);
        (0..SETS as u32).all(|set| (0..N).all(|e| agrees_at(matroid, &sets, set, e)))
    }

    // A triangle with a parallel route, a route from a place to itself, and a route to the last place.
    fn example_routes() -> [Route; N] {
        [
            Route { from: 0, to: 1 },
            Route { from: 1, to: 2 },
            Route { from: 2, to: 0 },
            Route { from: 1, to: 0 },
            Route { from: 3, to: 3 },
            Route { from: 0, to: 255 },
        ]
    }

    #[test]
    fn routes_agree(rt: HostRuntime) -> Result<(), Fail> {
        let routes = example_routes();
        let matroid = Routes::new(routes.to_vec(rt.alloc())?)?;
        assert!(rt; matroid.size() == 6);
        assert!(rt; agrees(&matroid, &RouteTrial(routes)));
        Ok(())
    }

    // Lots of caps 2, 1 and 0, and one beyond the caps.
    #[test]
    fn lots_agree(rt: HostRuntime) -> Result<(), Fail> {
        let lots = [0, 0, 0, 1, 2, 3];
        let caps = [2, 1, 0];
        let matroid = Lots::new(lots.to_vec(rt.alloc())?, caps.to_vec(rt.alloc())?)?;
        assert!(rt; matroid.size() == 6);
        assert!(rt; agrees(&matroid, &LotTrial(lots, caps)));
        Ok(())
    }

    // Equal words, a word without ones, and the first and the last bit.
    #[test]
    fn words_agree(rt: HostRuntime) -> Result<(), Fail> {
        let words = [3, 5, 6, 5, 0, 0x8000_0000_0000_0001];
        let matroid = Words::new(words.to_vec(rt.alloc())?)?;
        assert!(rt; matroid.size() == 6);
        assert!(rt; agrees(&matroid, &WordTrial(words)));
        Ok(())
    }

    #[test]
    fn routes_refuse(rt: HostRuntime) -> Result<(), Fail> {
        let matroid = Routes::new(example_routes().to_vec(rt.alloc())?)?;
        let none = [false; MARKS];
        let mut marks = [false; MARKS];
        let mut short = [false; 255];
        assert!(rt; told(matroid.circuit(&short, 9, &mut marks)) == Err((14, 0)));
        assert!(rt; told(matroid.circuit(&none, 9, &mut short)) == Err((14, 0)));
        assert!(rt; told(matroid.circuit(&marks_of(0b1100_0000), 6, &mut marks)) == Err((8, 6)));
        assert!(rt; told(matroid.circuit(&marks_of(0b1100_0001), 0, &mut marks)) == Err((8, 6)));
        assert!(rt; told(matroid.circuit(&marks_of(0b1_0001), 0, &mut marks)) == Err((15, 0)));
        assert!(rt; told(matroid.circuit(&marks_of(0b1_0001), 1, &mut marks)) == Err((16, 0)));
        assert!(rt; shows(&marks, 0));
        Ok(())
    }

    // Marks beyond those of a set: in the set they do not count, and in the result they stay.
    #[test]
    fn marks_beyond(rt: HostRuntime) -> Result<(), Fail> {
        let matroid = Words::new([1, 1].to_vec(rt.alloc())?)?;
        let mut set = [false; 300];
        let mut marks = [true; 300];
        set[0] = true;
        set[256] = true;
        assert!(rt; told(matroid.circuit(&set, 1, &mut marks)) == Ok(Closing::Circuit));
        assert!(rt; marks[0] && marks[1] && !marks[2] && !marks[255] && marks[256] && marks[299]);
        Ok(())
    }

    // At most 255 elements.
    #[test]
    fn limits(rt: HostRuntime) -> Result<(), Fail> {
        assert!(rt; Words::new(vec![in rt.alloc(); 1; 255]?)?.size() == 255);
        match Words::new(vec![in rt.alloc(); 1; 256]?) {
            Ok(_) => Err(Fail::new("too many elements")),
            Err(fault) => {
                assert!(rt; fault.number() == 3 && fault.place() == 0);
                Ok(())
            },
        }
    }
}

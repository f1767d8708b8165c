// Document 01's examples, run: for each a line with its name, one for load, one for each literal given, the bounds of sentence 1, what
// propagate answers, the trail's rows, and the bounds again. Then searches: on a ring of two with a list that is refused, at the highest level,
// and on a ring of 256 sentences.
#![tactic(auto)]

use calls::{Bound, Refusal};
use columns::SentenceColumns;
use search::Searched;
use test_parts::{M4, NO_SENTENCES};
use types::{Atom, Counters, Level, Sentence};

// Document 01's sentences by the name of the example; M2 has the one of M1, M5 that of M4.
const M1: SentenceColumns<'static> = SentenceColumns {
    head: 6,
    kind: 0,
    side: 0,
    bound: 3,
    weights: &[-5, -2, 0, 1, 9],
    literals: &[1, 2, 3, 4, 5],
};

const M3: SentenceColumns<'static> = SentenceColumns {
    head: 3,
    kind: 0,
    side: 0,
    bound: 0,
    weights: &[-5, -2, 2, 5],
    literals: &[1, -1, 2, 2],
};

const M6: SentenceColumns<'static> = SentenceColumns {
    head: 1,
    kind: 3,
    side: 1,
    bound: 0,
    weights: &[],
    literals: &[],
};

const M7: SentenceColumns<'static> = SentenceColumns { side: 0, ..M6 };

const M8: SentenceColumns<'static> = SentenceColumns {
    head: 3,
    kind: 3,
    side: 0,
    bound: 0,
    weights: &[0, -4],
    literals: &[1, 2],
};

const M9: SentenceColumns<'static> = SentenceColumns {
    head: 3,
    kind: 4,
    side: 0,
    bound: 6,
    weights: &[5, 8],
    literals: &[1, 2],
};

const M10: SentenceColumns<'static> = SentenceColumns {
    head: 3,
    kind: 1,
    side: 1,
    bound: 5,
    weights: &[2, 3],
    literals: &[1, 2],
};

// A bound: its number, or which infinite one it is.
fn show_bound(rt: &impl Print, bound: Bound) {
    let _ = match bound {
        Bound::BelowAll => print!(rt; " below"),
        Bound::AboveAll => print!(rt; " above"),
        Bound::Number(z) => print!(rt; " {z}"),
    };
}

fn show_bounds(rt: &impl Print, area: &[u64], counters: Counters) {
    match dalelead::bounds(area, counters, Sentence(1)) {
        Ok(bounds) => {
            let _ = print!(rt; "bounds 0");
            show_bound(rt, bounds.least);
            show_bound(rt, bounds.greatest);
            let _ = println!(rt);
        }
        Err(refusal) => {
            let _ = println!(rt; "bounds {} 0 0", refusal.code());
        }
    }
}

fn show_list(rt: &impl Print, list: &[i64]) {
    for number in list {
        let _ = print!(rt; " {number}");
    }
    let _ = println!(rt);
}

fn show_trail(rt: &impl Print, area: &[u64], counters: Counters) {
    let mut list = [0i64; 18];
    match dalelead::list_trail(area, counters, &mut list) {
        Ok(length) => {
            let _ = print!(rt; "trail 0 {length}");
            show_list(rt, &list[..length.min(18) as usize]);
        }
        Err(refusal) => {
            let _ = println!(rt; "trail {} {}", refusal.code(), refusal.value());
        }
    }
}

// One sentence over six atoms, and the literals given.
fn example(rt: &impl Print, sentence: SentenceColumns<'_>, given: &[i64]) {
    let mut area = [0u64; 64];
    let answer = test_parts::load_one(&mut area, Atom(6), sentence);
    let _ = println!(rt; "load {}", test_parts::loaded(answer).0);
    let now = test_parts::give_all(rt, &mut area, given);
    show_bounds(rt, &area, now);
    let after = test_parts::show_propagate(rt, &mut area, now);
    show_trail(rt, &area, after);
    show_bounds(rt, &area, after);
}

fn sums(rt: &impl Print) {
    let _ = println!(rt; "M1");
    example(rt, M1, &[-4, 5]);
    let _ = println!(rt; "M2");
    example(rt, M1, &[6, 1]);
    let _ = println!(rt; "M3");
    example(rt, M3, &[]);
    let _ = println!(rt; "M4");
    example(rt, M4, &[3, 1]);
    let _ = println!(rt; "M5");
    example(rt, M4, &[3, 1, 2]);
}

fn extremes(rt: &impl Print) {
    let _ = println!(rt; "M6");
    example(rt, M6, &[]);
    let _ = println!(rt; "M7");
    example(rt, M7, &[]);
    let _ = println!(rt; "M8");
    example(rt, M8, &[3]);
    let _ = println!(rt; "M9");
    example(rt, M9, &[-1]);
    let _ = println!(rt; "M10");
    example(rt, M10, &[3]);
    example(rt, M10, &[3, 1]);
}

// M11: derived at level 1, taken back, and derived again at level 0.
fn again(rt: &impl Print) {
    let _ = println!(rt; "M11");
    let mut area = [0u64; 64];
    let _ = test_parts::load_one(&mut area, Atom(3), M4);
    let given = test_parts::give_all(rt, &mut area, &[3, 1]);
    let opened = dalelead::open_level(&mut area, given);
    let _ = println!(rt; "open {}", test_parts::code(opened));
    let level = opened.unwrap_or(given);
    let derived = test_parts::show_propagate(rt, &mut area, level);
    show_trail(rt, &area, derived);
    let back = dalelead::take_back(&mut area, derived, Level(0));
    let _ = println!(rt; "take back {}", test_parts::code(back));
    let left = back.unwrap_or(derived);
    show_bounds(rt, &area, left);
    let after = test_parts::show_propagate(rt, &mut area, left);
    show_trail(rt, &area, after);
}

// M12: two sentences that refer to each other.
fn ring_of_two(rt: &impl Print) {
    let _ = println!(rt; "M12");
    let mut area = [0u64; 28];
    test_parts::load_two(&mut area);
    let given = test_parts::give_all(rt, &mut area, &[1]);
    let after = test_parts::show_propagate(rt, &mut area, given);
    show_trail(rt, &area, after);
}

fn show_search(rt: &impl Print, counters: Counters, answer: Result<Searched, Refusal>) {
    let _ = match answer {
        Ok(end) => println!(rt;
            "search 0 {} {} {} {} {}",
            end.sentence.map_or(0, |k| k.0),
            end.count,
            end.gone,
            end.counters.length,
            end.counters.level.0
        ),
        Err(refusal) => println!(rt;
            "search {} 0 0 0 {} {}",
            refusal.code(),
            counters.length,
            counters.level.0
        ),
    };
}

fn show_search_of(rt: &impl Print, area: &mut [u64], counters: Counters, literals: &[i64]) {
    show_search(rt, counters, dalelead::search(area, counters, literals));
}

fn show_same(rt: &impl Print, a: &[u64], b: &[u64]) {
    let _ = if a == b {
        println!(rt; "words kept")
    } else {
        println!(rt; "words changed")
    };
}

// On a ring of two: 10 for the list's last literal changes no word; without it the search goes through the list, the second literal passed over.
fn refused_list(rt: &impl Print) {
    let mut area = [0u64; 28];
    test_parts::load_two(&mut area);
    let before = area;
    show_search_of(rt, &mut area, Counters::start(), &[1, -2, 3]);
    show_same(rt, &area, &before);
    show_search_of(rt, &mut area, Counters::start(), &[1, -2, 2]);
    show_same(rt, &area, &before);
}

// Open 1,025 times: the number of levels opened, and the last answer.
fn open_all(rt: &impl Print, area: &mut [u64]) -> Counters {
    let mut now = Counters::start();
    let mut opened: u64 = 0;
    let mut last: u64 = 0;
    for turn in 0..1025u64 {
        let answer = dalelead::open_level(area, now);
        last = test_parts::code(answer);
        if let Ok(next) = answer {
            now = next;
            opened = turn + 1;
        }
    }
    let _ = println!(rt; "levels {opened} {last}");
    now
}

// At the highest level an open literal ends the search, with no refusal, and one that is on the trail is passed over.
fn levels(rt: &impl Print) {
    let mut area = [0u64; 4];
    let _ = dalelead::load(&mut area, Atom(1), NO_SENTENCES);
    let top = open_all(rt, &mut area);
    show_search_of(rt, &mut area, top, &[1]);
    let given = test_parts::give_one(rt, &mut area, top, 1);
    show_search_of(rt, &mut area, given, &[-1, 1]);
}

fn load_ring(rt: &impl Print, area: &mut [u64]) {
    let _ = println!(rt; "ring {}", test_parts::load_ring(area));
}

// Sentence i: head i, 1 <= sum {(1, the next head)}. One atom given, the others follow round the ring; then searches on it.
fn ring(rt: &impl Print) {
    let mut area = [0u64; 3584];
    load_ring(rt, &mut area);
    let given = test_parts::give_all(rt, &mut area, &[1]);
    test_parts::show_propagate(rt, &mut area, given);
    load_ring(rt, &mut area);
    show_search_of(rt, &mut area, Counters::start(), &[7, 7, 8]);
    load_ring(rt, &mut area);
    show_search_of(rt, &mut area, Counters::start(), &[7, 0]);
    load_ring(rt, &mut area);
    let both = test_parts::give_all(rt, &mut area, &[1, -5]);
    show_search_of(rt, &mut area, both, &[7]);
    show_search_of(rt, &mut area, Counters::start(), &[7]);
}

fn main(rt: HostRuntime) {
    sums(&rt);
    extremes(&rt);
    again(&rt);
    ring_of_two(&rt);
    refused_list(&rt);
    levels(&rt);
    ring(&rt);
}

// What the test programs share: one sentence loaded, what is given and propagated, printed in lines, and rings of sentences. A line that
// cannot be written is dropped, and the program goes on.
#![tactic(auto)]

use calls::Refusal;
use columns::{Columns, SentenceColumns};
use propagate::Propagated;
use std::array;
use types::{Atom, Counters};

// M4: head 3, sum {(1,1),(2,2)} <= 1.
pub const M4: SentenceColumns<'static> = SentenceColumns {
    head: 3,
    kind: 0,
    side: 1,
    bound: 1,
    weights: &[1, 2],
    literals: &[1, 2],
};

pub const NO_SENTENCES: Columns<'static> = Columns {
    heads: &[],
    kinds: &[],
    sides: &[],
    bounds: &[],
    counts: &[],
    weights: &[],
    literals: &[],
};

// 0, or the refusal's number.
pub fn code<T: Copy>(answer: Result<T, Refusal>) -> u64 {
    match answer {
        Ok(_) => 0,
        Err(refusal) => refusal.code(),
    }
}

// Of a load, and the sentence that it is about.
pub fn loaded(answer: Result<Counters, columns::Refusal>) -> (u64, u64) {
    match answer {
        Ok(_) => (0, 0),
        Err(refusal) => {
            let told = refusal.answer();
            (told.code, told.sentence.0)
        }
    }
}

pub fn load_one(
    area: &mut [u64],
    atoms: Atom,
    sentence: SentenceColumns<'_>,
) -> Result<Counters, columns::Refusal> {
    dalelead::load(
        area,
        atoms,
        Columns {
            heads: &[sentence.head],
            kinds: &[sentence.kind],
            sides: &[sentence.side],
            bounds: &[sentence.bound],
            counts: &[sentence.weights.len() as u64],
            weights: sentence.weights,
            literals: sentence.literals,
        },
    )
}

pub fn give_one(rt: &impl Print, area: &mut [u64], counters: Counters, literal: i64) -> Counters {
    let answer = dalelead::give(area, counters, literal);
    let _ = println!(rt; "give {literal} {}", code(answer));
    answer.unwrap_or(counters)
}

pub fn give_all(rt: &impl Print, area: &mut [u64], literals: &[i64]) -> Counters {
    literals.iter().fold(Counters::start(), |now, &literal| {
        give_one(rt, area, now, literal)
    })
}

pub fn show_propagate(rt: &impl Print, area: &mut [u64], counters: Counters) -> Counters {
    match dalelead::propagate(area, counters) {
        Err(refusal) => {
            let _ = println!(rt; "refused {}", refusal.code());
            counters
        }
        Ok(Propagated::Still(count, after)) => {
            let _ = println!(rt; "still {count}");
            after
        }
        Ok(Propagated::Conflict(sentence, count, after)) => {
            let _ = println!(rt; "conflict {count} {}", sentence.0);
            after
        }
    }
}

// M12: two sentences that refer to each other.
pub fn load_two(area: &mut [u64]) -> u64 {
    let answer = dalelead::load(
        area,
        Atom(2),
        Columns {
            heads: &[1, 2],
            kinds: &[0; 2],
            sides: &[0; 2],
            bounds: &[1; 2],
            counts: &[1; 2],
            weights: &[1; 2],
            literals: &[2, 1],
        },
    );
    loaded(answer).0
}

// A ring of 256: sentence i has head i and in its set atom i + 1; the last has the first. Answers the load's number.
pub fn load_ring(area: &mut [u64]) -> u64 {
    let heads: [u64; 256] = array::from_fn(|i| i as u64 + 1);
    let literals: [i64; 256] = array::from_fn(|i| (i as i64 + 1) % 256 + 1);
    let answer = dalelead::load(
        area,
        Atom(256),
        Columns {
            heads: &heads,
            kinds: &[0; 256],
            sides: &[0; 256],
            bounds: &[1; 256],
            counts: &[1; 256],
            weights: &[1; 256],
            literals: &literals,
        },
    );
    loaded(answer).0
}

// Explanations, conflicts and origins, run: M4, M5 and M12 of document 01, a ring of 256 sentences, and a chain of 85 diamonds, which has
// 2^85 paths from its end to its start. The last two answer at once.
#![tactic(auto)]

use calls::Refusal;
use columns::Columns;
use std::array;
use test_parts::M4;
use types::{Atom, Counters, Sentence};

// The literals given, with no line for each.
fn give_all(area: &mut [u64], literals: &[i64]) -> Counters {
    literals.iter().fold(Counters::start(), |now, &literal| {
        dalelead::give(area, now, literal).unwrap_or(now)
    })
}

// What a list call answers: its code, its value, and the list.
fn show(rt: &impl Print, name: &str, answer: Result<u64, Refusal>, list: &[i64]) {
    match answer {
        Ok(length) => {
            let _ = print!(rt; "{name} 0 {length}");
            for number in list.iter().take(length as usize) {
                let _ = print!(rt; " {number}");
            }
            let _ = println!(rt);
        }
        Err(refusal) => {
            let _ = println!(rt; "{name} {} {}", refusal.code(), refusal.value());
        }
    }
}

fn explain(rt: &impl Print, area: &[u64], counters: Counters, literal: i64, list: &mut [i64]) {
    let answer = dalelead::explain(area, counters, literal, list);
    show(rt, "explain", answer, list);
}

fn conflict(rt: &impl Print, area: &[u64], counters: Counters, sentence: u64, list: &mut [i64]) {
    let answer = dalelead::explain_conflict(area, counters, Sentence(sentence), list);
    show(rt, "conflict", answer, list);
}

fn origin(rt: &impl Print, area: &[u64], counters: Counters, literal: i64, list: &mut [i64]) {
    let answer = dalelead::origin(area, counters, literal, list);
    show(rt, "origin", answer, list);
}

// The derived literal, with too short a list, a given one, one whose negation is on the trail, and one of no atom.
fn explained(rt: &impl Print, area: &[u64], counters: Counters) {
    explain(rt, area, counters, -2, &mut [0; 3]);
    explain(rt, area, counters, -2, &mut [0; 2]);
    explain(rt, area, counters, 3, &mut [0; 3]);
    explain(rt, area, counters, 2, &mut [0; 3]);
    explain(rt, area, counters, 4, &mut [0; 3]);
}

fn m4(rt: &impl Print) {
    let _ = println!(rt; "M4");
    let mut area = [0u64; 24];
    let _ = test_parts::load_one(&mut area, Atom(3), M4);
    let given = give_all(&mut area, &[3, 1]);
    let after = test_parts::show_propagate(rt, &mut area, given);
    explained(rt, &area, after);
    origin(rt, &area, after, -2, &mut [0; 2]);
    origin(rt, &area, after, -2, &mut [0; 1]);
    conflict(rt, &area, after, 1, &mut [0; 3]);
}

fn m5(rt: &impl Print) {
    let _ = println!(rt; "M5");
    let mut area = [0u64; 24];
    let _ = test_parts::load_one(&mut area, Atom(3), M4);
    let given = give_all(&mut area, &[3, 1, 2]);
    let after = test_parts::show_propagate(rt, &mut area, given);
    conflict(rt, &area, after, 1, &mut [0; 4]);
    conflict(rt, &area, after, 1, &mut [0; 2]);
    conflict(rt, &area, after, 2, &mut [0; 4]);
    conflict(rt, &area, Counters::start(), 1, &mut [0; 4]);
}

fn m12(rt: &impl Print) {
    let _ = println!(rt; "M12");
    let mut area = [0u64; 28];
    test_parts::load_two(&mut area);
    let given = give_all(&mut area, &[1]);
    let after = test_parts::show_propagate(rt, &mut area, given);
    explain(rt, &area, after, 2, &mut [0; 2]);
    origin(rt, &area, after, 2, &mut [0; 2]);
    origin(rt, &area, after, 1, &mut [0; 2]);
}

fn ring(rt: &impl Print) {
    let _ = println!(rt; "ring of 256");
    let mut area = [0u64; 3584];
    test_parts::load_ring(&mut area);
    let given = give_all(&mut area, &[1]);
    let after = test_parts::show_propagate(rt, &mut area, given);
    origin(rt, &area, after, 2, &mut [0; 4]);
    origin(rt, &area, after, 256, &mut [0; 4]);
    explain(rt, &area, after, 200, &mut [0; 4]);
}

// Diamond d has atoms 3d + 1 above, 3d + 2 and 3d + 3 at its sides, and 3d + 4 below: each side follows from the atom above, and the atom
// below from both sides. Sentence 3d + j, from 0, has head 3d + j + 2; the atom below has two entries and asks for both.
fn load_diamonds(area: &mut [u64]) -> u64 {
    let heads: [u64; 255] = array::from_fn(|i| i as u64 + 2);
    let bounds: [i64; 255] = array::from_fn(|i| [1, 1, 2][i % 3]);
    let counts: [u64; 255] = array::from_fn(|i| [1, 1, 2][i % 3]);
    let literals: [i64; 340] = array::from_fn(|i| 3 * (i as i64 / 4) + [1, 1, 2, 3][i % 4]);
    let answer = dalelead::load(
        area,
        Atom(256),
        Columns {
            heads: &heads,
            kinds: &[0; 255],
            sides: &[0; 255],
            bounds: &bounds,
            counts: &counts,
            weights: &[1; 340],
            literals: &literals,
        },
    );
    test_parts::loaded(answer).0
}

fn diamonds(rt: &impl Print) {
    let mut area = [0u64; 3744];
    let _ = println!(rt; "diamonds {}", load_diamonds(&mut area));
    let given = give_all(&mut area, &[1]);
    let after = test_parts::show_propagate(rt, &mut area, given);
    explain(rt, &area, after, 256, &mut [0; 4]);
    origin(rt, &area, after, 256, &mut [0; 4]);
    origin(rt, &area, after, 2, &mut []);
}

fn main(rt: HostRuntime) {
    m4(&rt);
    m5(&rt);
    m12(&rt);
    ring(&rt);
    diamonds(&rt);
}

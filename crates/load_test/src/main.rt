// Each refusal of load, and the case that just misses it: a line with the code and the sentence for each load. Then the words that a load
// of document 01's example M4 leaves, one to a line, with two words past the need.
#![tactic(auto)]

use columns::{Columns, Refusal, SentenceColumns};
use test_parts::{M4, NO_SENTENCES};
use types::{Atom, Counters};

fn show(rt: &impl Print, answer: Result<Counters, Refusal>) {
    let (code, sentence) = test_parts::loaded(answer);
    let _ = println!(rt; "{code} {sentence}");
}

// Stays: kinds and sides by document 01's numbers, since numbers of none are tried.
// ---- one sentence over four atoms

// A sum with no entry: each sentence below says in what it differs.
const BASE: SentenceColumns<'static> = SentenceColumns {
    head: 3,
    kind: 0,
    side: 0,
    bound: 5,
    weights: &[],
    literals: &[],
};

fn show_one(rt: &impl Print, sentence: SentenceColumns<'_>) {
    show(rt, test_parts::load_one(&mut [7; 64], Atom(4), sentence));
}

fn entry(rt: &impl Print, head: u64, kind: u64, weight: i64, literal: i64) {
    show_one(
        rt,
        SentenceColumns {
            head,
            kind,
            weights: &[weight],
            literals: &[literal],
            ..BASE
        },
    );
}

fn pair(rt: &impl Print, kind: u64, first: i64, second: i64) {
    show_one(
        rt,
        SentenceColumns {
            kind,
            weights: &[1, 1],
            literals: &[first, second],
            ..BASE
        },
    );
}

fn empty(rt: &impl Print, kind: u64, side: u64, bound: i64) {
    show_one(
        rt,
        SentenceColumns {
            kind,
            side,
            bound,
            ..BASE
        },
    );
}

// ---- 1: counts and shapes

// No sentence.
fn atoms(rt: &impl Print, n: u64) {
    show(rt, dalelead::load(&mut [7; 4100], Atom(n), NO_SENTENCES));
}

// Sentences of head 1 and no entry: as many as heads, with the other columns as given.
fn columns_of(
    rt: &impl Print,
    heads: &[u64],
    kinds: &[u64],
    sides: &[u64],
    bounds: &[i64],
    counts: &[u64],
) {
    let mut area = [7u64; 2100];
    let answer = dalelead::load(
        &mut area,
        Atom(1),
        Columns {
            heads,
            kinds,
            sides,
            bounds,
            counts,
            weights: &[],
            literals: &[],
        },
    );
    show(rt, answer);
}

fn sentences(rt: &impl Print) {
    let heads = [1u64; 256];
    let zeros = [0u64; 256];
    let bounds = [0i64; 256];
    columns_of(rt, &heads, &zeros, &zeros, &bounds, &zeros);
    let more = [0u64; 257];
    let further = [0i64; 257];
    columns_of(rt, &[1; 257], &more, &more, &further, &more);
    columns_of(rt, &heads, &more, &zeros, &bounds, &zeros);
    columns_of(rt, &heads, &zeros, &more, &bounds, &zeros);
    columns_of(rt, &heads, &zeros, &zeros, &further, &zeros);
    columns_of(rt, &heads, &zeros, &zeros, &bounds, &more);
}

// Sums over literal 2, with the given counts.
fn entries_of(rt: &impl Print, counts: &[u64], weights: &[i64], literals: &[i64]) {
    let mut area = [7u64; 8300];
    let answer = dalelead::load(
        &mut area,
        Atom(2),
        Columns {
            heads: &[1; 4],
            kinds: &[0; 4],
            sides: &[0; 4],
            bounds: &[0; 4],
            counts,
            weights,
            literals,
        },
    );
    show(rt, answer);
}

fn entries(rt: &impl Print) {
    let weights = [1i64; 4096];
    let literals = [2i64; 4096];
    let full = [1024u64; 4];
    entries_of(rt, &full, &weights, &literals);
    entries_of(rt, &[1023, 1023, 1025, 1025], &weights, &literals);
    entries_of(rt, &[1024, 1024, 1024, 1023], &weights, &literals);
    entries_of(rt, &[u64::MAX, 1, 2048, 2048], &weights, &literals);
    let long = [2i64; 4097];
    entries_of(rt, &full, &weights, &long);
    entries_of(rt, &[1024, 1024, 1024, 1025], &[1; 4097], &long);
}

fn shapes(rt: &impl Print) {
    atoms(rt, 0);
    atoms(rt, 1);
    atoms(rt, 1024);
    atoms(rt, 1025);
    sentences(rt);
    entries(rt);
}

// ---- 2: an area of 26 words

fn into(rt: &impl Print, area: &mut [u64]) {
    let answer = test_parts::load_one(
        area,
        Atom(4),
        SentenceColumns {
            bound: 1,
            weights: &[1],
            literals: &[1],
            ..BASE
        },
    );
    show(rt, answer);
}

fn areas(rt: &impl Print) {
    into(rt, &mut [7; 25]);
    into(rt, &mut [7; 26]);
}

// ---- 3 to 8

fn unknown(rt: &impl Print) {
    empty(rt, 4, 0, 5);
    empty(rt, 5, 0, 5);
    empty(rt, 0, 1, 5);
    empty(rt, 0, 2, 5);
    let mut area = [7u64; 32];
    let answer = dalelead::load(
        &mut area,
        Atom(4),
        Columns {
            heads: &[3, 4],
            kinds: &[0, 5],
            sides: &[0; 2],
            bounds: &[5; 2],
            counts: &[0; 2],
            weights: &[],
            literals: &[],
        },
    );
    show(rt, answer);
}

fn strange(rt: &impl Print) {
    entry(rt, 4, 0, 1, 1);
    entry(rt, 5, 0, 1, 1);
    entry(rt, 0, 0, 1, 1);
    entry(rt, 3, 0, 1, -4);
    entry(rt, 3, 0, 1, -5);
    entry(rt, 3, 0, 1, 0);
}

fn ranges(rt: &impl Print) {
    entry(rt, 3, 0, 1_000_000_000, 1);
    entry(rt, 3, 0, 1_000_000_001, 1);
    entry(rt, 3, 3, -1_000_000_000, 1);
    entry(rt, 3, 3, -1_000_000_001, 1);
    entry(rt, 3, 1, 1, 1);
    entry(rt, 3, 1, 0, 1);
    entry(rt, 3, 2, 1, 1);
    entry(rt, 3, 2, 2, 1);
    empty(rt, 0, 0, 1_000_000_000_000_000_000);
    empty(rt, 0, 0, 1_000_000_000_000_000_001);
    empty(rt, 0, 0, -1_000_000_000_000_000_000);
    empty(rt, 0, 0, -1_000_000_000_000_000_001);
    empty(rt, 0, 0, i64::MIN);
}

fn signs(rt: &impl Print) {
    entry(rt, 3, 4, 1, 2);
    entry(rt, 3, 4, 1, -3);
    pair(rt, 3, 1, 1);
    pair(rt, 3, 1, -1);
    pair(rt, 4, -2, 2);
    pair(rt, 2, 1, -1);
}

fn products(rt: &impl Print) {
    let product = SentenceColumns {
        kind: 1,
        side: 1,
        weights: &[1_000_000_000; 2],
        literals: &[1, 2],
        ..BASE
    };
    show_one(rt, product);
    show_one(
        rt,
        SentenceColumns {
            weights: &[1_000_000_000, 1_000_000_000, 2],
            literals: &[1, 2, 4],
            ..product
        },
    );
}

// ---- the words of M4

fn example(rt: &impl Print) {
    let mut area = [7u64; 26];
    show(rt, test_parts::load_one(&mut area, Atom(3), M4));
    for word in &area {
        let _ = println!(rt; "{word}");
    }
}

fn main(rt: HostRuntime) {
    shapes(&rt);
    areas(&rt);
    unknown(&rt);
    strange(&rt);
    ranges(&rt);
    signs(&rt);
    products(&rt);
    example(&rt);
}

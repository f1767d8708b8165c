// What one stored sentence says first, over the stored values, where its extremes are known.
#![tactic(auto)]

ghost use Rattle.std.specs.Prelude.{◌≡◌, true, ◌+◌, ◌≤◌, ◌<◌, length};
ghost use Rattle.numbers.specs.Words.{half, top};
ghost use Rattle.area.specs.Layout.{value_at, bound_at, entry_words};
ghost use Rattle.extremes.specs.Inner.Of.{ExtremesOf};
ghost use Rattle.extremes.specs.Inner.Words.{empty_word};
ghost use Rattle.extremes.specs.Inner.Room.{Entries};
ghost use Rattle.evaluate.specs.Inner.Words.{best_kind, second_word, limit_at, scanned, wanted_word};
ghost use Rattle.evaluate.specs.Inner.Room.{Turns, Turnable};
ghost use Rattle.evaluate.specs.Inner.Known.{turns_open, head_known, body_known};
ghost use Rattle.evaluate.specs.Inner.Of.{KnownOf, SaidOf};

use extremes::{Evaluable, Extremes};
use kinds::{Aggregate, Kind, Max, Min};

mod steps;

// What a sentence says first: nothing, that it is in conflict, or a forced open literal, as a word.
#[derive(Clone, Copy, Debug, PartialEq, Eq)]
pub enum Said {
    Silent,
    Conflict,
    Forced(u64),
}

// Entries that are to be scanned, under a fixed head: the direction of its truth, the comparison's limit, the extreme in that direction,
// and where the entries start.
#[derive(Clone, Copy, Debug, PartialEq, Eq)]
pub struct Body {
    pub kind: Kind,
    pub up: bool,
    pub limit: u64,
    pub extreme: u64,
    pub start: usize,
    pub merged: usize,
}

// What a sentence says before its entries are scanned: nothing, that it is in conflict, a forced literal of its head, or that the scan decides.
#[derive(Clone, Copy, Debug, PartialEq, Eq)]
pub enum Known {
    Silent,
    Conflict,
    Forced(u64),
    Undecided(Body),
}

// The value over no weight of a maximum up, of a minimum down.
fn none_of(up: bool) -> u64
    ensures { result ≡ empty_word (best_kind up) }
{
    if up { Max::empty() } else { Min::empty() }
}

// The second best of a maximum up, of a minimum down.
fn second(area: &[u64], up: bool, start: usize, count: usize, n: usize) -> u64
    requires { Entries area.now start count n }
    ensures { result ≡ second_word up (value_at area.now n) (entry_words area.now start count) }
{
    let none = none_of(up);
    let mut best = none;
    let mut next = none;
    for i in 0..count {
        let x = steps::reach(up, none, extremes::entry_in(area, start, n, i));
        next = extremes::furthest(up, next, steps::nearest(up, best, x));
        best = extremes::furthest(up, best, x);
    }
    next
}

// Whether an entry of weight w, whose atom's value is v, is open and turns.
pub fn entry_turns(body: Body, w: u64, v: u64) -> bool
    requires { v ≡ 0 → Turns body.kind body.up body.extreme w }
    ensures { result ≡ turns_open body w v }
{
    v == 0 && steps::turn(body.kind, body.up, body.limit, body.extreme, w)
}

// The literal of that entry that is then forced.
pub fn entry_wanted(body: Body, w: u64, l: u64) -> u64
    requires { (2 ≤ l) × (l < top) }
    ensures { result ≡ wanted_word body.up (empty_word body.kind) w l }
{
    steps::wanted(body.up, body.kind.empty(), w, l)
}

// The first open entry that turns.
fn scan(area: &[u64], body: Body, n: usize) -> Said
    requires entries { Entries area.now body.start body.merged n }
    requires turnable { Turnable body.kind body.up body.extreme (value_at area.now n) (entry_words area.now body.start body.merged) }
    ensures { result ≡ scanned body.kind body.up body.limit body.extreme (value_at area.now n) (entry_words area.now body.start body.merged) }
{
    for i in 0..body.merged {
        let e = extremes::entry_in(area, body.start, n, i);
        if entry_turns(body, e.weight, e.value) {
            return Said::Forced(entry_wanted(body, e.weight, e.literal));
        }
    }
    Said::Silent
}

// With the head fixed: the body's extreme is the one towards its truth, and `other` the other.
fn of_body(area: &[u64], body: Body, other: u64, n: usize) -> Known
    requires { Entries area.now body.start body.merged n }
    ensures { result ≡ body_known body.kind body.up body.limit body.extreme other (value_at area.now n) area.now body.start body.merged }
{
    if !steps::keep(body.up, body.limit, body.extreme) {
        return Known::Conflict;
    }
    if steps::keep(body.up, body.limit, other) {
        return Known::Silent;
    }
    if steps::leaves_second(body.kind, body.up)
        && steps::keep(
            body.up,
            body.limit,
            second(area, body.up, body.start, body.merged, n),
        )
    {
        return Known::Silent;
    }
    Known::Undecided(body)
}

// With the head open: whether the comparison holds, or fails, whatever comes.
fn of_head(holds: bool, fails: bool, head: u64) -> Known
    requires { head < half }
    ensures { result ≡ head_known holds fails head }
{
    if holds {
        Known::Forced(2 * head)
    } else if fails {
        Known::Forced(2 * head + 1)
    } else {
        Known::Silent
    }
}

// The first word on the far side of the comparison of the sentence at `base`.
fn limit_at(area: &[u64], base: usize) -> u64
    requires { (base + 8 ≤ length area.now) × (bound_at area.now base < top) }
    ensures { result ≡ limit_at area.now base }
{
    let bound = area::bound_at(area, base);
    if area::upper_at(area, base) {
        bound + 1
    } else {
        bound
    }
}

// What that sentence says before its entries are scanned, where its extremes are known.
pub fn look(sentence: Evaluable<'_>, found: Extremes) -> Known
    requires { ExtremesOf sentence found }
    ensures { KnownOf sentence.entry result }
{
    let Evaluable { area, sizes, base } = sentence;
    let head = area::head_at(area, base);
    let upper = area::upper_at(area, base);
    let limit = limit_at(area, base);
    let v = area::value_at(area, sizes.atoms, head as usize);
    if v == 0 {
        // It holds where it cannot come to fail, and fails where it cannot come to hold.
        let failing = steps::upwards(upper, false);
        let holding = steps::upwards(upper, true);
        return of_head(
            !steps::keep(failing, limit, found.towards(failing)),
            !steps::keep(holding, limit, found.towards(holding)),
            head,
        );
    }
    let up = steps::upwards(upper, v % 2 == 1);
    let body = Body {
        kind: area::kind_at(area, base),
        up,
        limit,
        extreme: found.towards(up),
        start: area::entry_at(area, sizes, base),
        merged: area::merged_at(area, base),
    };
    of_body(area, body, found.towards(!up), sizes.atoms)
}

// Whether the extremes alone show that the sentence has nothing to say: its head is open and the comparison too, or its head is fixed and
// the comparison is sure to have its truth.
pub fn settled(sentence: Evaluable<'_>, found: Extremes) -> bool
    requires { ExtremesOf sentence found }
    ensures { result ≡ true → SaidOf sentence.entry Said.Silent }
{
    let Evaluable { area, sizes, base } = sentence;
    let limit = limit_at(area, base);
    let sure = limit <= found.least;
    let possible = limit <= found.greatest;
    let head = area::head_at(area, base);
    let v = area::value_at(area, sizes.atoms, head as usize);
    if v == 0 {
        return possible && !sure;
    }
    if steps::upwards(area::upper_at(area, base), v % 2 == 1) {
        sure && possible
    } else {
        !sure && !possible
    }
}

// What that sentence says first, where its extremes are known.
pub fn says(sentence: Evaluable<'_>, found: Extremes) -> Said
    requires { ExtremesOf sentence found }
    ensures { SaidOf sentence.entry result }
{
    match look(sentence, found) {
        Known::Silent => Said::Silent,
        Known::Conflict => Said::Conflict,
        Known::Forced(l) => Said::Forced(l),
        Known::Undecided(body) => scan(sentence.area, body, sentence.sizes.atoms),
    }
}

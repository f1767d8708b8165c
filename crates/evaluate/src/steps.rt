// Single steps on words: the two directions, and the test of one entry.
ghost use Rattle.std.specs.Prelude.{◌≡◌, ◌≤◌, ◌<◌};
ghost use Rattle.numbers.specs.Words.{top};
ghost use Rattle.extremes.specs.Inner.Words.{nearest_word, reach_word};
ghost use Rattle.evaluate.specs.Inner.Words.{upwards, keeps, shifted, scaled, turns_word, wanted_word, leaves_second};
ghost use Rattle.evaluate.specs.Inner.Room.{Turns};

use extremes::EntryWords;
use kinds::Kind;
use types::HALF;

pub fn nearest(up: bool, a: u64, b: u64) -> u64
    ensures { result ≡ nearest_word up a b }
{
    if up { a.min(b) } else { a.max(b) }
}

// What an entry contributes at its furthest.
pub fn reach(up: bool, empty: u64, e: EntryWords) -> u64
    ensures { result ≡ reach_word up empty e.weight e.literal e.value }
{
    if e.value == 0 {
        extremes::furthest(up, e.weight, empty)
    } else if e.value % 2 == e.literal % 2 {
        empty
    } else {
        e.weight
    }
}

// Whether the comparison has, at the value e, the truth that lies in the direction.
pub fn keep(up: bool, limit: u64, e: u64) -> bool
    ensures { result ≡ keeps up limit e }
{
    if up { limit <= e } else { e < limit }
}

// The direction in which the comparison comes to have the truth.
pub fn upwards(upper: bool, truth: bool) -> bool
    ensures { result ≡ upwards upper truth }
{
    if upper { !truth } else { truth }
}

fn shift(up: bool, e: u64, w: u64) -> u64
    requires { Turns Kind.Sum up e w }
    ensures { result ≡ shifted up e w }
{
    e + nearest(up, w, HALF) - extremes::furthest(up, w, HALF)
}

fn scale(up: bool, e: u64, w: u64) -> u64
    requires { Turns Kind.Product up e w }
    ensures { result ≡ scaled up e w }
{
    if up {
        HALF + (e - HALF) / (w - HALF)
    } else {
        HALF + (e - HALF) * (w - HALF)
    }
}

// Whether the comparison loses its truth with an open entry of weight w the other way.
pub fn turn(kind: Kind, up: bool, limit: u64, e: u64, w: u64) -> bool
    requires { Turns kind up e w }
    ensures { result ≡ turns_word kind up limit e w }
{
    match kind {
        Kind::Sum | Kind::Count => !keep(up, limit, shift(up, e, w)),
        Kind::Product => !keep(up, limit, scale(up, e, w)),
        Kind::Max => if up { w == e } else { !keep(up, limit, w) },
        Kind::Min => if up { !keep(up, limit, w) } else { w == e },
    }
}

// The literal of an entry that goes in the direction.
pub fn wanted(up: bool, empty: u64, w: u64, l: u64) -> u64
    requires { (2 ≤ l) × (l < top) }
    ensures { result ≡ wanted_word up empty w l }
{
    if extremes::furthest(up, w, empty) == w {
        l
    } else if l % 2 == 0 {
        l + 1
    } else {
        l - 1
    }
}

// Whether a turned entry leaves the second best.
pub fn leaves_second(kind: Kind, up: bool) -> bool
    ensures { result ≡ leaves_second kind up }
{
    match kind {
        Kind::Sum | Kind::Product | Kind::Count => false,
        Kind::Max => up,
        Kind::Min => !up,
    }
}

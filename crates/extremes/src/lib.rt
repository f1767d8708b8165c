// The extremes of one stored sentence over the stored values: the kinds' steps on words, and the fold of both extremes in one loop.
#![tactic(auto)]

ghost use Rattle.std.specs.Prelude.{◌≡◌, cond};
ghost use Rattle.area.specs.Layout.{value_at, entry_words};
ghost use Rattle.extremes.specs.Inner.Of.{ExtremesOf};
ghost use Rattle.extremes.specs.Inner.Words.{start_word, combined, furthest_word, ReachesAre, StepIs, FoldsAre};
ghost use Rattle.extremes.specs.Inner.Room.{Entries, Inside, EntryIs, Steps, Rooms};

use kinds::{Aggregate, Count, Kind, Max, Min, Product, Sum};
use types::HALF;

mod evaluable;

pub use evaluable::Evaluable;

// The words of the least and the greatest value.
#[derive(Clone, Copy, Debug, PartialEq, Eq)]
pub struct Extremes {
    pub least: u64,
    pub greatest: u64,
}

// The two words of an entry, and the value of its atom.
#[derive(Clone, Copy, Debug, PartialEq, Eq)]
pub struct EntryWords {
    pub weight: u64,
    pub literal: u64,
    pub value: u64,
}

// How a kind combines the word of what was folded with one more.
trait Fold: Aggregate {
    fn step(acc: u64, more: u64) -> u64
        requires { Steps Self.kind acc more }
        ensures { result ≡ combined Self.kind acc more };
}

impl Fold for Sum {
    fn step(acc: u64, more: u64) -> u64 {
        acc + more - HALF
    }
}

impl Fold for Product {
    fn step(acc: u64, more: u64) -> u64 {
        HALF + (acc - HALF) * (more - HALF)
    }
}

impl Fold for Count {
    fn step(acc: u64, more: u64) -> u64 {
        acc + more - HALF
    }
}

impl Fold for Max {
    fn step(acc: u64, more: u64) -> u64 {
        acc.max(more)
    }
}

impl Fold for Min {
    fn step(acc: u64, more: u64) -> u64 {
        acc.min(more)
    }
}

impl Extremes {
    // The extreme in a direction.
    pub fn towards(self, up: bool) -> u64
        ensures { result ≡ cond up self.greatest self.least }
    {
        if up { self.greatest } else { self.least }
    }

    // One step of both folds.
    fn step<K: Fold>(self, more: Extremes) -> Extremes
        requires { Steps K.kind self.least more.least × Steps K.kind self.greatest more.greatest }
        ensures { StepIs K.kind self.least self.greatest more.least more.greatest result }
    {
        Extremes {
            least: K::step(self.least, more.least),
            greatest: K::step(self.greatest, more.greatest),
        }
    }
}

// Where the fold starts.
fn start_of(kind: Kind, constant: u64) -> u64
    ensures { result ≡ start_word kind constant }
{
    match kind {
        Kind::Sum | Kind::Count => constant,
        Kind::Product | Kind::Max | Kind::Min => kind.empty(),
    }
}

pub fn furthest(up: bool, a: u64, b: u64) -> u64
    ensures { result ≡ furthest_word up a b }
{
    if up { a.max(b) } else { a.min(b) }
}

// What an entry contributes at its furthest down and up.
fn reaches(empty: u64, e: EntryWords) -> Extremes
    ensures { ReachesAre empty e.weight e.literal e.value result }
{
    if e.value == 0 {
        return Extremes {
            least: furthest(false, e.weight, empty),
            greatest: furthest(true, e.weight, empty),
        };
    }
    let x = if e.value % 2 == e.literal % 2 {
        empty
    } else {
        e.weight
    };
    Extremes {
        least: x,
        greatest: x,
    }
}

// Entry i of those from `start` on.
pub fn entry_in(area: &[u64], start: usize, n: usize, i: usize) -> EntryWords
    requires { Inside area.now start n i }
    ensures { EntryIs area.now start n i result }
{
    let literal = area::literal_in(area, start, i);
    EntryWords {
        weight: area::weight_in(area, start, i),
        literal,
        value: area::value_at(area, n, (literal / 2) as usize),
    }
}

// Both folds in one loop over the entries; a loop for each kind, so that in the loop the kind is no question.
fn folds<K: Fold>(area: &[u64], first: u64, start: usize, count: usize, n: usize) -> Extremes
    requires entries { Entries area.now start count n }
    requires rooms { Rooms K.kind first (value_at area.now n) (entry_words area.now start count) }
    ensures { FoldsAre K.kind first (value_at area.now n) (entry_words area.now start count) result }
{
    let none = K::empty();
    let mut both = Extremes {
        least: first,
        greatest: first,
    };
    for i in 0..count {
        both = both.step::<K>(reaches(none, entry_in(area, start, n, i)));
    }
    both
}

fn folds_by_kind(
    area: &[u64],
    kind: Kind,
    first: u64,
    start: usize,
    count: usize,
    n: usize,
) -> Extremes
    requires entries { Entries area.now start count n }
    requires rooms { Rooms kind first (value_at area.now n) (entry_words area.now start count) }
    ensures { FoldsAre kind first (value_at area.now n) (entry_words area.now start count) result }
{
    match kind {
        Kind::Sum => folds::<Sum>(area, first, start, count, n),
        Kind::Product => folds::<Product>(area, first, start, count, n),
        Kind::Count => folds::<Count>(area, first, start, count, n),
        Kind::Max => folds::<Max>(area, first, start, count, n),
        Kind::Min => folds::<Min>(area, first, start, count, n),
    }
}

pub fn extremes_of(sentence: Evaluable<'_>) -> Extremes
    ensures { ExtremesOf sentence.entry result }
{
    let Evaluable { area, sizes, base } = sentence;
    let kind = area::kind_at(area, base);
    let first = start_of(kind, area::constant_at(area, base));
    let start = area::entry_at(area, sizes, base);
    let merged = area::merged_at(area, base);
    folds_by_kind(area, kind, first, start, merged, sizes.atoms)
}

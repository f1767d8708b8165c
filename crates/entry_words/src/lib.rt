// Written entries as words: weights and literals, the turn of an entry in sums and counts, and the join of two weights of one literal.
#![tactic(auto)]

ghost use Rattle.std.specs.Prelude.{◌≡◌, ◌≤◌, nat_abs};
ghost use Rattle.types.specs.Limits.{bound_limit, widest};
ghost use Rattle.numbers.specs.Words.{bias, unbias, literal_word};
ghost use Rattle.meaning.specs.Merge.{joined};
ghost use Rattle.kinds.specs.Kinds.{meant};
ghost use Rattle.entry_words.specs.Inner.Entries.{TurnedIs, Joinable};

use kinds::Kind;
use types::HALF;

// An entry as it is collected, and what it adds to the constant, as words.
#[derive(Clone, Copy, Debug, PartialEq, Eq)]
pub struct Turned {
    pub weight: u64,
    pub literal: u64,
    pub freed: u64,
}

// The word of a weight or a bound.
pub fn number_word(w: i64) -> u64
    requires { nat_abs w ≤ bound_limit }
    ensures { result ≡ bias w }
{
    if w.is_negative() {
        HALF - w.unsigned_abs()
    } else {
        HALF + w.unsigned_abs()
    }
}

pub fn literal_word(l: i64) -> u64
    requires { nat_abs l ≤ widest.atoms }
    ensures { result ≡ literal_word l }
{
    2 * l.unsigned_abs() + u64::from(l.is_negative())
}

// In sums and counts a weight w on -a is -w on a, and w in the constant.
pub fn turn(kind: Kind, x: u64, l: u64) -> Turned
    requires { (x ≤ 9223372036854775808) × (2 ≤ l) × (l ≤ 8193) }
    ensures { TurnedIs (meant kind) x l result }
{
    if kind.mixes() && l % 2 == 1 {
        return Turned {
            weight: 2 * HALF - x,
            literal: l - 1,
            freed: x,
        };
    }
    Turned {
        weight: x,
        literal: l,
        freed: HALF,
    }
}

// The word of the weight that joins two of one literal.
pub fn join(kind: Kind, x: u64, y: u64) -> u64
    requires { Joinable (meant kind) (unbias x) (unbias y) }
    ensures { unbias result ≡ joined (meant kind) (unbias x) (unbias y) }
{
    match kind {
        Kind::Sum | Kind::Count => x + y - HALF,
        Kind::Product => HALF + (x - HALF) * (y - HALF),
        Kind::Max => x.max(y),
        Kind::Min => x.min(y),
    }
}

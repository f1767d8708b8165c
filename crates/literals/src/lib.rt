// Literals on the way between the caller's signed numbers and the words of the area: the atom of a caller's literal, if it has one, and the
// literal of a stored word.
#![tactic(auto)]

ghost use Rattle.std.specs.Prelude.{◌≡◌, neg_ℤ};
ghost use Rattle.numbers.specs.Words.{literal_of};
ghost use Rattle.literals.specs.Inner.Literals.{AtomOf};

// The atom of a literal of n atoms; none of a literal of no atom, which every call that is given one refuses with 10.
pub fn atom_of(literal: i64, n: usize) -> Option<usize>
    ensures { AtomOf n literal result }
{
    let size = literal.unsigned_abs();
    if 1 <= size && size <= n as u64 {
        Some(size as usize)
    } else {
        None
    }
}

// The literal of a stored word.
#[tactic(auto, unfolding(numbers::specs::Words::literal_of))]
pub fn literal_of(x: u64) -> i64
    ensures { result ≡ literal_of x }
{
    let atom = (x / 2) as i64;
    if x % 2 == 0 { atom } else { -atom }
}

// Its negation: the literal of the other word of its atom.
#[tactic(auto, unfolding(numbers::specs::Words::literal_of))]
pub fn negated(x: u64) -> i64
    ensures { result ≡ neg_ℤ (literal_of x) }
{
    -literal_of(x)
}

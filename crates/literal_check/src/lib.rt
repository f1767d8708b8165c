// A written sentence's literals, looked at before a word is written: that each is of an atom, that none is of the head's, and that no atom
// has both signs where the kind forbids it. Load's refusals 4, 6 and 7.
#![tactic(auto)]

ghost use Rattle.std.specs.Prelude.{◌≡◌, false, not, ◌||◌, ◌&&◌, ◌+◌};
ghost use Rattle.types.specs.Limits.{widest};
ghost use Rattle.meaning.specs.Meaning.{mixes};
ghost use Rattle.kinds.specs.Kinds.{meant};
ghost use Rattle.area.specs.Layout.{sign};
ghost use Rattle.columns.specs.Refusals.{outside};
ghost use Rattle.columns.specs.Indexed.{no_literal, head_inside, negated};

use kinds::Kind;

fn outside(n: u64, a: u64) -> bool
    ensures { result ≡ outside n a }
{
    a == 0 || a > n
}

pub fn strange(n: u64, head: u64, literals: &[i64]) -> bool
    ensures { result ≡ (outside n head || no_literal n literals.now) }
{
    outside(n, head) || literals.iter().any(|l| outside(n, l.unsigned_abs()))
}

pub fn own_head(head: u64, literals: &[i64]) -> bool
    ensures { result ≡ head_inside head literals.now }
{
    literals.iter().any(|l| l.unsigned_abs() == head)
}

// 1 for an atom as itself, 2 for one negated: two marks add up to 3 where they differ.
fn mark(literal: i64) -> u8
    ensures { result ≡ 1 + sign literal }
{
    1 + u8::from(literal.is_negative())
}

// In the table stands the mark of each atom met so far.
fn both_signs(literals: &[i64]) -> bool
    requires { no_literal widest.atoms literals.now ≡ false }
    ensures { result ≡ negated literals.now }
{
    let mut met = [0u8; 4097];
    for literal in literals {
        let a = literal.unsigned_abs() as usize;
        let m = mark(*literal);
        if met[a] == 3 - m {
            return true;
        }
        met[a] = m;
    }
    false
}

pub fn mixed(kind: Kind, literals: &[i64]) -> bool
    requires { no_literal widest.atoms literals.now ≡ false }
    ensures { result ≡ (not (mixes (meant kind)) && negated literals.now) }
{
    !kind.mixes() && both_signs(literals)
}

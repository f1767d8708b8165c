// The merge of a written set into a part of the work area, in three passes: the entries are gathered; in sums and counts those of weight 0
// are left out; the words behind are set to 0.
#![tactic(auto)]

ghost use Rattle.std.specs.Prelude.{◌*◌, ◌≤◌, length};
ghost use Rattle.types.specs.Limits.{widest};
ghost use Rattle.kinds.specs.Kinds.{meant};
ghost use Rattle.gather.specs.Inner.Gather.{Mergeable};
ghost use Rattle.merge.specs.Inner.Into.{Sifted, MergedInto};

use gather::Merged;
use kinds::Kind;
use types::HALF;

// The second pass, in sums and counts: the entries of weight 0 are left out. Says how many there are then.
fn sift(part: &mut [u64], count: usize) -> usize
    requires { (2 * count ≤ length part.old) × (count ≤ widest.each) }
    ensures { Sifted part.old part.new count result }
{
    // Stays: where the next kept entry goes in the same words (no heap, so no `retain`).
    let mut m = 0;
    for k in 0..count {
        let x = part[2 * k];
        let l = part[2 * k + 1];
        let kept = x != HALF;
        if kept {
            part[2 * m] = x;
            part[2 * m + 1] = l;
            m += 1;
        }
    }
    m
}

pub fn merge_into(part: &mut [u64], kind: Kind, weights: &[i64], literals: &[i64]) -> Merged
    requires { Mergeable part.old (meant kind) weights.now literals.now }
    ensures { MergedInto part.new (meant kind) weights.now literals.now result }
{
    let m = gather::gather(part, kind, weights, literals);
    if kind.mixes() {
        let count = sift(part, m.count);
        blank::blank_words(part, 2 * count, part.len());
        return Merged { count, ..m };
    }
    blank::blank_words(part, 2 * m.count, part.len());
    Merged { constant: 0, ..m }
}

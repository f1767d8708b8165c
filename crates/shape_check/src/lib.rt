// The shape of load's columns (refusal 1): the limits, the columns' lengths, and the counts of the entries, which add up to all.
#![tactic(auto)]

ghost use Rattle.std.specs.Prelude.{◌≡◌, eqb, length};
ghost use Rattle.decide.specs.Below.{sum_first};
ghost use Rattle.columns.specs.Columns.{held};
ghost use Rattle.columns.specs.Indexed.{above_limits, sizes, unequal_sizes};

use columns::Columns;
use types::Limits;

pub fn past_limits(lim: Limits, atoms: u64, sentences: u64, entries: u64) -> bool
    ensures { result ≡ above_limits lim atoms sentences entries }
{
    atoms == 0 || atoms > lim.atoms || sentences > lim.sentences || entries > lim.entries
}

pub fn unequal(columns: Columns<'_>) -> bool
    ensures { result ≡ unequal_sizes (sizes (held columns.entry)) }
{
    let sentences = columns.heads.len();
    columns.kinds.len() != sentences
        || columns.sides.len() != sentences
        || columns.bounds.len() != sentences
        || columns.counts.len() != sentences
        || columns.literals.len() != columns.weights.len()
}

// A sum that would wrap is past the total before.
#[tactic(auto, using(crate::proofs::Sums::counted))]
pub fn adds_up(counts: &[u64], total: u64) -> bool
    ensures { result ≡ eqb (sum_first counts.now (length counts.now)) total }
{
    let mut left = total;
    for &count in counts {
        if count > left {
            return false;
        }
        left -= count;
    }
    left == 0
}

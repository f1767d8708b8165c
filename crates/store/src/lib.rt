// The columns of an accepted load are written into the area: an empty trail, then each sentence's record with its merged entries.
#![tactic(auto)]

ghost use Rattle.std.specs.Prelude.{◌≤◌, length};
ghost use Rattle.columns.specs.Columns.{held};
ghost use Rattle.store.specs.Inner.Stored.{Cleared, Admitted, AllStored};

use area::Sizes;
use columns::{Columns, SentenceColumns};

// An empty trail at level 0.
fn clear(area: &mut [u64], to: usize, first: u64)
    requires { (1 ≤ to) × (to ≤ length area.old) }
    ensures { Cleared area.old area.new to first }
{
    area[0] = first;
    blank::blank_words(area, 1, to);
}

pub fn store_all(area: &mut [u64], n: usize, columns: Columns<'_>)
    requires { Admitted area.old n (held columns) }
    ensures { AllStored area.old area.new n (held columns.entry) }
{
    let all = columns.heads.len();
    let sizes = Sizes {
        atoms: n,
        sentences: all,
    };
    clear(area, 4 * n, n as u64 + 65536 * all as u64);
    let mut from = 0;
    for s in 0..all {
        let to = from + columns.counts[s] as usize;
        let sentence = SentenceColumns {
            head: columns.heads[s],
            kind: columns.kinds[s],
            side: columns.sides[s],
            bound: columns.bounds[s],
            weights: &columns.weights[from..to],
            literals: &columns.literals[from..to],
        };
        stored_sentence::store_one(area, sizes, s, from, sentence);
        from = to;
    }
}

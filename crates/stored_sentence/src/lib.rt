// One written sentence stored: its merged entries, and its record. It is marked as pending, and its bounds are left open.
#![tactic(auto)]

ghost use Rattle.kinds.specs.Kinds.{meant};
ghost use Rattle.columns.specs.Columns.{held_sentence};
ghost use Rattle.stored_sentence.specs.Inner.Sentences.{MergeAsked, MergedAt, Storable, Stored};

use area::Sizes;
use columns::SentenceColumns;
use gather::Merged;
use kinds::Kind;

// The merge of a written set, in the words of the area from `at` on.
fn merge_at(area: &mut [u64], at: usize, kind: Kind, weights: &[i64], literals: &[i64]) -> Merged
    requires { MergeAsked area.old at (meant kind) weights.now literals.now }
    ensures { MergedAt area.old area.new at (meant kind) weights.now literals.now result }
{
    let end = at + 2 * weights.len();
    merge::merge_into(&mut area[at..end], kind, weights, literals)
}

// Sentence s, from 0: its record and its merged entries, behind the `before` entries of the sentences before it.
pub fn store_one(
    area: &mut [u64],
    sizes: Sizes,
    s: usize,
    before: usize,
    sentence: SentenceColumns<'_>,
)
    requires { Storable area.old sizes.atoms sizes.sentences s before sentence.head sentence.kind sentence.side sentence.bound sentence.weights.now sentence.literals.now }
    ensures { Stored area.old area.new sizes.atoms sizes.sentences s before (held_sentence sentence.entry) }
{
    let SentenceColumns {
        head,
        kind,
        side,
        bound,
        weights,
        literals,
    } = sentence;
    let own = sizes.record_at(s);
    let at = sizes.record_at(sizes.sentences) + 2 * before;
    let set = merge_at(area, at, Kind::numbered(kind), weights, literals);
    let b = entry_words::number_word(bound);
    area[own..own + 8].copy_from_slice(&[
        head,
        kind + 8 * side + 16,
        b,
        set.constant,
        0,
        0,
        before as u64,
        weights.len() as u64 + 65536 * set.count as u64,
    ]);
}

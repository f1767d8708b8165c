// The explanation of a sentence in conflict, on a whole area.
#![tactic(auto)]

ghost use Rattle.types.specs.Limits.{Fitting};
ghost use Rattle.book.specs.Table.{explain_conflict};
ghost use Rattle.area.specs.Whole.{Whole};
ghost use Rattle.calls.specs.Calls.{counted};
ghost use Rattle.causes.specs.Inner.Listing.{Listing};
ghost use Rattle.conflict.specs.Inner.Conflict.{BoundsStored, ConflictOf};

use calls::Refusal;
use evaluate::Said;
use extremes::{Evaluable, Extremes};
use types::Sentence;
use whole::WholeArea;

// The sentence is in conflict with the values.
fn in_conflict(sentence: Evaluable<'_>) -> bool
    requires { BoundsStored sentence }
    ensures { ConflictOf sentence.entry result }
{
    let Evaluable { area, base, .. } = sentence;
    let stored = Extremes {
        least: area::least_at(area, base),
        greatest: area::greatest_at(area, base),
    };
    matches!(evaluate::says(sentence, stored), Said::Conflict)
}

// The answer on a whole area, and the list.
pub fn conflict_whole(
    checked: WholeArea<'_>,
    sentence: Sentence,
    list: &mut [i64],
) -> Result<u64, Refusal>
    ensures { Listing checked.entry.lim checked.entry.area.now (explain_conflict sentence.0) list.old list.new result }
{
    let WholeArea { area, .. } = checked;
    let sizes = area::sizes_of(area);
    if sentence.0 == 0 || sentence.0 > sizes.sentences as u64 {
        return Err(Refusal::NoSentence);
    }
    let clash = Evaluable {
        area,
        sizes,
        base: sizes.record_at((sentence.0 - 1) as usize),
    };
    if !in_conflict(clash) {
        return Err(Refusal::NoConflict);
    }
    let rows = area::length_of(area);
    let needed = negations::count_causes(clash, rows);
    if list.len() < needed {
        return Err(Refusal::TooShort(needed as u64));
    }
    negations::write_causes(clash, rows, list, 0);
    Ok(needed as u64)
}

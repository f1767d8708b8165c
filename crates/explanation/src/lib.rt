// The explanation of a derived literal by its reason, on a whole area.
#![tactic(auto)]

ghost use Rattle.types.specs.Limits.{Fitting};
ghost use Rattle.book.specs.Table.{explain};
ghost use Rattle.area.specs.Whole.{Whole};
ghost use Rattle.calls.specs.Calls.{counted};
ghost use Rattle.causes.specs.Inner.Listing.{Listing};

use calls::Refusal;
use extremes::Evaluable;
use whole::WholeArea;

// The answer on a whole area, and the list.
pub fn explanation_whole(
    checked: WholeArea<'_>,
    literal: i64,
    list: &mut [i64],
) -> Result<u64, Refusal>
    ensures { Listing checked.entry.lim checked.entry.area.now (explain literal) list.old list.new result }
{
    let WholeArea { area, .. } = checked;
    let position = located::locate(area, literal)?;
    let sizes = area::sizes_of(area);
    let Some(sentence) = area::row_reason(area, sizes.atoms, position).checked_sub(1) else {
        return Err(Refusal::Given);
    };
    let reason = Evaluable {
        area,
        sizes,
        base: sizes.record_at(sentence),
    };
    let needed = 1 + negations::count_causes(reason, position);
    if list.len() < needed {
        return Err(Refusal::TooShort(needed as u64));
    }
    list[0] = literal;
    negations::write_causes(reason, position, list, 1);
    Ok(needed as u64)
}

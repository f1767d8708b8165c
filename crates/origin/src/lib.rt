// Origins: the given literals that a literal of the trail rests on, as a report.
#![tactic(auto)]

ghost use Rattle.types.specs.Limits.{Fitting};
ghost use Rattle.book.specs.Table.{origin};
ghost use Rattle.area.specs.Whole.{Whole};
ghost use Rattle.calls.specs.Calls.{counted, listed_returned, Reports};
ghost use Rattle.causes.specs.Inner.Listing.{Listing};

use calls::Refusal;
use types::{Counters, Limits};
use whole::WholeArea;

// The answer on a whole area, and the list.
fn origin_whole(checked: WholeArea<'_>, literal: i64, list: &mut [i64]) -> Result<u64, Refusal>
    ensures { Listing checked.entry.lim checked.entry.area.now (origin literal) list.old list.new result }
{
    let position = located::locate(checked.area, literal)?;
    origins::list_origins(checked.area, position, list)
}

pub fn origin_within(
    area: &[u64],
    lim: Limits,
    counters: Counters,
    literal: i64,
    list: &mut [i64],
) -> Result<u64, Refusal>
    requires { Fitting lim }
    ensures { Reports lim area.now (counted counters) (origin literal) list.old list.new (listed_returned result) }
{
    let Some(checked) = whole::whole_area(area, lim, counters) else {
        return Err(Refusal::NotWhole);
    };
    origin_whole(checked, literal, list)
}

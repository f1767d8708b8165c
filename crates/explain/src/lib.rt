// Explanations: of a derived literal by its reason, and of a sentence in conflict. They read the work area and change no word of it.
#![tactic(auto)]

ghost use Rattle.types.specs.Limits.{Fitting};
ghost use Rattle.book.specs.Table.{explain, explain_conflict};
ghost use Rattle.calls.specs.Calls.{counted, listed_returned, Reports};

use calls::Refusal;
use types::{Counters, Limits, Sentence};

pub fn explain_within(
    area: &[u64],
    lim: Limits,
    counters: Counters,
    literal: i64,
    list: &mut [i64],
) -> Result<u64, Refusal>
    requires { Fitting lim }
    ensures { Reports lim area.now (counted counters) (explain literal) list.old list.new (listed_returned result) }
{
    let Some(checked) = whole::whole_area(area, lim, counters) else {
        return Err(Refusal::NotWhole);
    };
    explanation::explanation_whole(checked, literal, list)
}

pub fn explain_conflict_within(
    area: &[u64],
    lim: Limits,
    counters: Counters,
    sentence: Sentence,
    list: &mut [i64],
) -> Result<u64, Refusal>
    requires { Fitting lim }
    ensures { Reports lim area.now (counted counters) (explain_conflict sentence.0) list.old list.new (listed_returned result) }
{
    let Some(checked) = whole::whole_area(area, lim, counters) else {
        return Err(Refusal::NotWhole);
    };
    conflict::conflict_whole(checked, sentence, list)
}

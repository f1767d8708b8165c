// The check of wholeness: word 0, the trail, the places of the sentences, each sentence with its bounds and what it says, the reasons.
#![tactic(auto)]

ghost use Rattle.types.specs.Limits.{Fitting};
ghost use Rattle.decide.specs.Inner.Tells.{Tells};
ghost use Rattle.area.specs.Whole.{Whole};
ghost use Rattle.whole.specs.Parts.{counters_with};
ghost use Rattle.whole.specs.Inner.Found.{FoundWhole};
ghost use Rattle.whole.specs.Inner.Check.{SentencesAsked, TellsOver, MatchingTold, RightBelow};

use area::Sizes;
use evaluate::Said;
use extremes::Evaluable;
use types::{Counters, Limits};

mod found;

pub use found::WholeArea;

// The stored bounds match the values, and a sentence not marked as pending has nothing to say.
fn matching(sentence: Evaluable<'_>) -> bool
    ensures { MatchingTold sentence.entry result }
{
    let Evaluable { area, base, .. } = sentence;
    let found = extremes::extremes_of(sentence);
    area::least_at(area, base) == found.least
        && area::greatest_at(area, base) == found.greatest
        && (area::pending_at(area, base)
            || evaluate::settled(sentence, found)
            || matches!(evaluate::says(sentence, found), Said::Silent))
}

// The sentences. An atom met in one has a stamp above the number of sentences before it, so that one table serves all.
fn sentences_ok(area: &[u64], lim: Limits, sizes: Sizes) -> bool
    requires { SentencesAsked lim area.now sizes.atoms sizes.sentences }
    ensures { TellsOver area.now sizes.atoms result (RightBelow lim area.now sizes.atoms sizes.sentences sizes.sentences) }
{
    let mut seen = [0u16; 4097];
    for s in 0..sizes.sentences {
        let base = sizes.record_at(s);
        if !theory_check::sentence_ok(area, lim, sizes, base, &mut seen, s as u16)
            || !matching(Evaluable { area, sizes, base })
        {
            return false;
        }
    }
    true
}

pub fn is_whole(area: &[u64], lim: Limits, counters: Counters) -> bool
    requires { Fitting lim }
    ensures { Tells result (Whole lim area.now (counters_with counters.length counters.level.0)) }
{
    if !trail_check::header_ok(area, lim, counters.length, counters.level.0) {
        return false;
    }
    let sizes = area::sizes_of(area);
    let rows = counters.length as usize;
    trail_check::trail_ok(area, sizes.atoms, rows, counters.level.0)
        && theory_check::places_ok(area, lim, sizes)
        && sentences_ok(area, lim, sizes)
        && reason_check::reasons_ok(area, lim, sizes, rows)
}

// The area, if it is whole.
pub fn whole_area(area: &[u64], lim: Limits, counters: Counters) -> Option<WholeArea<'_>>
    requires { Fitting lim }
    ensures { FoundWhole lim area.now (counters_with counters.length counters.level.0) result }
{
    if is_whole(area, lim, counters) {
        Some(WholeArea {
            area,
            lim,
            counters,
        })
    } else {
        None
    }
}

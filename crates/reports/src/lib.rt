// Reports: the bounds of a sentence, and the trail as a list. They read the work area and change no word of it.
#![tactic(auto)]

ghost use Rattle.std.specs.Prelude.{◌≡◌, [], ◌∷◌, ◌++◌, ◌+◌, ◌*◌, ◌<◌, ◌≤◌, pos, length, take, drop};
ghost use Rattle.types.specs.Limits.{Fitting};
ghost use Rattle.numbers.specs.Words.{unword};
ghost use Rattle.book.specs.Rows.{flat};
ghost use Rattle.book.specs.Table.{bounds, list_trail, a_report, returned_by, reply};
ghost use Rattle.area.specs.Layout.{rows_from};
ghost use Rattle.area.specs.Whole.{Whole};
ghost use Rattle.calls.specs.Calls.{counted, area_state, extended_of, bounds_returned, listed_returned, Answered, Reports};
ghost use Rattle.causes.specs.Inner.Listing.{Listing};

use calls::{Bound, Bounds, Refusal};
use trail_check::Trail;
use types::{Counters, HALF, Limits, Sentence};
use whole::WholeArea;

// The word of a value above every number; that of one below every number is 0.
const TOP: u64 = 2 * HALF;

// The bound that a stored word is.
fn bound_of(x: u64) -> Bound
    ensures { extended_of result ≡ unword x }
{
    if x == 0 {
        Bound::BelowAll
    } else if x >= TOP {
        Bound::AboveAll
    } else {
        Bound::Number(x as i64 - HALF as i64)
    }
}

// The answer on a whole area: the sentence's stored bounds.
pub fn bounds_whole(checked: WholeArea<'_>, sentence: Sentence) -> Result<Bounds, Refusal>
    ensures { bounds_returned result ≡ returned_by (reply (area_state checked.entry.lim checked.entry.area.now) (a_report (bounds sentence.0) 0)).answer }
{
    let WholeArea { area, .. } = checked;
    let sizes = area::sizes_of(area);
    if sentence.0 == 0 || sentence.0 > sizes.sentences as u64 {
        return Err(Refusal::NoSentence);
    }
    let base = sizes.record_at((sentence.0 - 1) as usize);
    Ok(Bounds {
        least: bound_of(area::least_at(area, base)),
        greatest: bound_of(area::greatest_at(area, base)),
    })
}

pub fn bounds_within(
    area: &[u64],
    lim: Limits,
    counters: Counters,
    sentence: Sentence,
) -> Result<Bounds, Refusal>
    requires { Fitting lim }
    ensures { Answered lim area.now (counted counters) (a_report (bounds sentence.0) 0) (bounds_returned result) }
{
    let Some(checked) = whole::whole_area(area, lim, counters) else {
        return Err(Refusal::NotWhole);
    };
    bounds_whole(checked, sentence)
}

// Three numbers from `at` on.
fn write_row(list: &mut [i64], at: usize, literal: i64, level: u64, reason: u64)
    requires { (at + 3 ≤ length list.old) × (level < 65536) × (reason < 65536) }
    ensures { list.new ≡ take at list.old ++ (literal ∷ pos level ∷ pos reason ∷ []) ++ drop (at + 3) list.old }
{
    list[at..at + 3].copy_from_slice(&[literal, level as i64, reason as i64]);
}

// The first rows, three numbers each; the rest of the list keeps its contents.
fn write_rows(trail: Trail<'_>, list: &mut [i64])
    requires { 3 * trail.len ≤ length list.old }
    ensures { list.new ≡ flat (rows_from trail.entry.area.now trail.entry.n trail.entry.len) ++ drop (3 * trail.entry.len) list.old }
{
    let Trail { area, n, len } = trail;
    for i in 0..len {
        let literal = literals::literal_of(area::literal_at(area, n, i));
        let level = area::row_level(area, n, i);
        let reason = area::row_reason(area, n, i);
        write_row(list, 3 * i, literal, level, reason as u64);
    }
}

// The answer on a whole area, and the list.
fn trail_whole(checked: WholeArea<'_>, list: &mut [i64]) -> Result<u64, Refusal>
    ensures { Listing checked.entry.lim checked.entry.area.now list_trail list.old list.new result }
{
    let trail = checked.trail();
    let needed = 3 * trail.len;
    if list.len() < needed {
        return Err(Refusal::TooShort(needed as u64));
    }
    write_rows(trail, list);
    Ok(needed as u64)
}

pub fn list_trail_within(
    area: &[u64],
    lim: Limits,
    counters: Counters,
    list: &mut [i64],
) -> Result<u64, Refusal>
    requires { Fitting lim }
    ensures { Reports lim area.now (counted counters) list_trail list.old list.new (listed_returned result) }
{
    let Some(checked) = whole::whole_area(area, lim, counters) else {
        return Err(Refusal::NotWhole);
    };
    trail_whole(checked, list)
}

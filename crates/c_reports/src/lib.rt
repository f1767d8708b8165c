// The reports, for C, under given limits.
#![tactic(auto)]

ghost use Rattle.std.specs.Prelude.{◌≡◌, [], ◌∷◌, ◌<◌, ◌≤◌, pos, length as list_length};
ghost use Rattle.types.specs.Limits.{Fitting};
ghost use Rattle.book.specs.Table.{bounds, explain, explain_conflict, origin, list_trail, infinity, number};
ghost use Rattle.calls.specs.Calls.{counted, extended_of};
ghost use Rattle.c_interface.specs.Inner.Numbers.{number_in, value_in};
ghost use Rattle.c_interface.specs.Interface.{fronted, ReportsBounds, ReportsList};

use calls::{Bound, Bounds, Refusal};
use types::{Counters, Limits, Sentence};

// A bound's mark and number.
fn marked(bound: Bound) -> (i64, i64)
    ensures mark { result.0 ≡ pos (infinity (extended_of bound)) }
    ensures number { result.1 ≡ number (extended_of bound) }
{
    match bound {
        Bound::BelowAll => (1, 0),
        Bound::Number(number) => (0, number),
        Bound::AboveAll => (2, 0),
    }
}

// Each bound's mark and number at the front.
fn put_bounds(out: &mut [i64], found: Bounds)
    requires { 4 ≤ list_length out.old }
    ensures { out.new ≡ fronted (pos (infinity (extended_of found.least)) ∷ number (extended_of found.least) ∷ pos (infinity (extended_of found.greatest)) ∷ number (extended_of found.greatest) ∷ []) out.old }
{
    let (least_mark, least) = marked(found.least);
    let (greatest_mark, greatest) = marked(found.greatest);
    c_interface::put_front(out, [least_mark, least, greatest_mark, greatest]);
}

// The least and the greatest value of a sentence over the full assignments that agree with the trail.
pub fn bounds(
    area: &[u64],
    lim: Limits,
    counters: Counters,
    sentence: Sentence,
    out: &mut [i64],
) -> Result<u64, Refusal>
    requires { Fitting lim }
    ensures reports { ReportsBounds lim area.now (counted counters) (bounds sentence.0) out.old out.new (number_in result) }
    ensures small { value_in result < 4294967296 }
{
    let asked = reports::bounds_within(area, lim, counters, sentence);
    let found = c_interface::ready(asked, 4, out.len())?;
    put_bounds(out, found);
    Ok(0)
}

// The literal, and the negations of its causes.
pub fn explain(
    area: &[u64],
    lim: Limits,
    counters: Counters,
    literal: i64,
    list: &mut [i64],
) -> Result<u64, Refusal>
    requires { Fitting lim }
    ensures reports { ReportsList lim area.now (counted counters) (explain literal) list.old list.new (number_in result) }
    ensures small { value_in result < 4294967296 }
{
    explain::explain_within(area, lim, counters, literal, list)
}

// The negations of the literals that a sentence is in conflict with.
pub fn explain_conflict(
    area: &[u64],
    lim: Limits,
    counters: Counters,
    sentence: Sentence,
    list: &mut [i64],
) -> Result<u64, Refusal>
    requires { Fitting lim }
    ensures reports { ReportsList lim area.now (counted counters) (explain_conflict sentence.0) list.old list.new (number_in result) }
    ensures small { value_in result < 4294967296 }
{
    explain::explain_conflict_within(area, lim, counters, sentence, list)
}

// The given literals that a literal rests on.
pub fn origin(
    area: &[u64],
    lim: Limits,
    counters: Counters,
    literal: i64,
    list: &mut [i64],
) -> Result<u64, Refusal>
    requires { Fitting lim }
    ensures reports { ReportsList lim area.now (counted counters) (origin literal) list.old list.new (number_in result) }
    ensures small { value_in result < 4294967296 }
{
    origin::origin_within(area, lim, counters, literal, list)
}

// Literal, level and reason of each row.
pub fn trail(
    area: &[u64],
    lim: Limits,
    counters: Counters,
    list: &mut [i64],
) -> Result<u64, Refusal>
    requires { Fitting lim }
    ensures reports { ReportsList lim area.now (counted counters) list_trail list.old list.new (number_in result) }
    ensures small { value_in result < 4294967296 }
{
    reports::list_trail_within(area, lim, counters, list)
}

// The lines in which the OPB program lists a whole area: the trail's rows and the sentences' bounds, on a lent page.
#![tactic(auto)]

ghost use Rattle.std.specs.Prelude.{◌≡◌, ◌*◌, ◌≤◌, length};
ghost use Rattle.book.specs.Rows.{a_row};
ghost use Rattle.book.specs.Table.{number};
ghost use Rattle.area.specs.Layout.{rows_from};
ghost use Rattle.calls.specs.Calls.{area_state, extended_of, bounds_returned};
ghost use Rattle.pages.specs.Page.{Puts};
ghost use Rattle.listing_lines.specs.Lines.{row_line, bound_line, row_lines, bound_lines, state_lines};

use calls::{Bound, Bounds, Refusal};
use pages::Page;
use trail_check::Trail;
use types::Sentence;
use whole::WholeArea;

fn put_row(page: &mut Page<'_>, literal: i64, level: u64, reason: u64)
    ensures { Puts page.old page.new (row_line (a_row literal level reason)) }
{
    page.put_named(b"t ", literal);
    page.put_pair(b" ", level, reason);
}

// Of a finite bound, its number.
fn number_of(bound: Bound) -> i64
    ensures { result ≡ number (extended_of bound) }
{
    match bound {
        Bound::Number(z) => z,
        _ => 0,
    }
}

fn put_bound(page: &mut Page<'_>, sentence: u64, answer: Result<Bounds, Refusal>)
    ensures { Puts page.old page.new (bound_line sentence (bounds_returned answer)) }
{
    let (least, greatest) = match answer {
        Ok(bounds) => (number_of(bounds.least), number_of(bounds.greatest)),
        Err(_) => (0, 0),
    };
    page.put_bytes(b"b ");
    page.put_number(sentence);
    page.put_named(b" ", least);
    page.put_named(b" ", greatest);
    page.put_bytes(b"\n");
}

// ---- the listing

// The trail's first rows, from the words of the area.
fn put_rows(page: &mut Page<'_>, trail: Trail<'_>)
    ensures { Puts page.old page.new (row_lines (rows_from trail.entry.area.now trail.entry.n trail.entry.len)) }
{
    let Trail { area, n, len } = trail;
    for i in 0..len {
        let literal = literals::literal_of(area::literal_at(area, n, i));
        let level = area::row_level(area, n, i);
        let reason = area::row_reason(area, n, i) as u64;
        put_row(page, literal, level, reason);
    }
}

// The bounds of the first sentences.
fn put_bounds(page: &mut Page<'_>, checked: WholeArea<'_>, sentences: u64)
    ensures { Puts page.old page.new (bound_lines (area_state checked.entry.lim checked.entry.area.now) sentences) }
{
    for s in 0..sentences {
        let k = s + 1;
        let answer = reports::bounds_whole(checked, Sentence(k));
        put_bound(page, k, answer);
    }
}

// The trail and the bounds.
pub fn put_state(page: &mut Page<'_>, checked: WholeArea<'_>)
    ensures { Puts page.old page.new (state_lines (area_state checked.entry.lim checked.entry.area.now)) }
{
    put_rows(page, checked.trail());
    put_bounds(page, checked, area::sentences_of(checked.area) as u64);
}

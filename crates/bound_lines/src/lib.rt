// The line of a sentence's bounds, put on a page.
#![tactic(auto)]

ghost use Rattle.book.specs.Table.{infinity, number};
ghost use Rattle.calls.specs.Calls.{extended_of, bounds_returned};
ghost use Rattle.pages.specs.Page.{Puts};
ghost use Rattle.answer_lines.specs.Lines.{bound, bounds_line};

use calls::{Bound, Bounds, Refusal};
use pages::Page;

fn put_bound(page: &mut Page<'_>, b: Bound)
    ensures { Puts page.old page.new (bound (infinity (extended_of b)) (number (extended_of b))) }
{
    match b {
        Bound::BelowAll => page.put_bytes(b"-inf"),
        Bound::AboveAll => page.put_bytes(b"inf"),
        Bound::Number(z) => page.put_signed(z),
    }
}

pub fn put_bounds(page: &mut Page<'_>, answer: Result<Bounds, Refusal>)
    ensures { Puts page.old page.new (bounds_line (bounds_returned answer)) }
{
    match answer {
        Ok(bounds) => {
            page.put_bytes(b"bounds ");
            put_bound(page, bounds.least);
            page.put_bytes(b" ");
            put_bound(page, bounds.greatest);
            page.put_bytes(b"\n");
        }
        Err(refusal) => answer_lines::put_refused(page, refusal),
    }
}

// The lines of the trail that a call listed, put on a page.
#![tactic(auto)]

ghost use Rattle.std.specs.Prelude.{◌≤◌, ◌/◌, length};
ghost use Rattle.calls.specs.Calls.{listed_returned};
ghost use Rattle.pages.specs.Page.{Puts};
ghost use Rattle.answer_lines.specs.Lines.{row_line, row_lines, trail_lines};

use calls::Refusal;
use pages::Page;

fn put_row(page: &mut Page<'_>, literal: i64, level: i64, reason: i64)
    ensures { Puts page.old page.new (row_line literal level reason) }
{
    page.put_named(b"t ", literal);
    page.put_named(b" ", level);
    page.put_named(b" ", reason);
    page.put_bytes(b"\n");
}

fn put_rows(page: &mut Page<'_>, list: &[i64], rows: usize)
    requires { rows ≤ length list.now / 3 }
    ensures { Puts page.old page.new (row_lines list.now rows) }
{
    for row in 0..rows {
        put_row(page, list[3 * row], list[3 * row + 1], list[3 * row + 2]);
    }
}

pub fn put_trail(page: &mut Page<'_>, answer: Result<u64, Refusal>, list: &[i64])
    ensures { Puts page.old page.new (trail_lines (listed_returned answer) list.now) }
{
    match answer {
        Ok(value) => {
            put_rows(page, list, list_lines::listed_of(list, value) / 3);
            page.put_line(b"trail ", value / 3);
        }
        Err(refusal) => answer_lines::put_refused(page, refusal),
    }
}

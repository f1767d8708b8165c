// The line of a list that a call wrote, put on a page.
#![tactic(auto)]

ghost use Rattle.std.specs.Prelude.{◌≤◌, length, take, ◌≡◌};
ghost use Rattle.calls.specs.Calls.{listed_returned};
ghost use Rattle.pages.specs.Page.{Puts};
ghost use Rattle.answer_lines.specs.Lines.{numbers, list_line};

use calls::Refusal;
use pages::Page;

// As many as are there.
pub fn listed_of(list: &[i64], value: u64) -> usize
    ensures { (result ≤ length list.now) × (result ≡ length (take value list.now)) }
{
    value.min(list.len() as u64) as usize
}

fn put_numbers(page: &mut Page<'_>, list: &[i64])
    ensures { Puts page.old page.new (numbers list.now) }
{
    for &number in list {
        page.put_named(b" ", number);
    }
}

pub fn put_list(page: &mut Page<'_>, name: &[u8], answer: Result<u64, Refusal>, list: &[i64])
    ensures { Puts page.old page.new (list_line name.now (listed_returned answer) list.now) }
{
    match answer {
        Ok(value) => {
            page.put_bytes(name);
            put_numbers(page, &list[..listed_of(list, value)]);
            page.put_bytes(b"\n");
        }
        Err(refusal) => answer_lines::put_refused(page, refusal),
    }
}

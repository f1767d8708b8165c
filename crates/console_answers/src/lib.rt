// The console's answers: each is put on a page that is never too short, and written on standard output.
#![tactic(auto)]

ghost use Rattle.std.specs.Prelude.{ℕ, ◌≤◌, List, length};
ghost use Rattle.pages.specs.Page.{Puts};

use calls::{Bounds, Refusal};
use pages::Page;
use propagate::Propagated;
use types::Counters;

// What the longest answer line needs that is no list.
const LINE_PAGE: usize = 9 + 2 * 21;

// No explanation and no origin has more numbers: each atom stands in it at most once. (The library would answer 18.)
pub const LIST: usize = 1_024;

const LIST_PAGE: usize = 50 + LIST * 22;

// Three numbers for each of 1,024 rows.
pub const ROWS: usize = 3_072;

const ROWS_PAGE: usize = 50 + ROWS / 3 * 68;

// Writes the line that `put` puts on a page, which has room for it.
fn write<F: FnOnce(&mut Page<'_>)>(bytes: &mut [u8], put: F)
    requires callable { F.IsAlwaysCallable put }
    requires fits { (line : List ℕ) × (length line ≤ length bytes.old) × ((p q : _) → F.post put p tt q → Puts p.now q.now line) }
{
    let mut page = Page::new(bytes);
    put(&mut page);
    // Stays: the bytes are proved, and `print!` promises nothing of them.
    io::write_all(1, page.text());
}

pub fn answer_plan(answer: Result<Counters, columns::Refusal>) {
    write(
        &mut [0; LINE_PAGE],
        |page| answer_lines::put_plan(page, answer),
    );
}

pub fn answer_done(name: &[u8], answer: Result<Counters, Refusal>)
    requires { length name.now ≤ 9 }
{
    write(
        &mut [0; LINE_PAGE],
        |page| answer_lines::put_done(page, name, answer),
    );
}

pub fn answer_propagated(answer: Result<Propagated, Refusal>) {
    write(
        &mut [0; LINE_PAGE],
        |page| answer_lines::put_propagated(page, answer),
    );
}

pub fn answer_bounds(answer: Result<Bounds, Refusal>) {
    write(
        &mut [0; LINE_PAGE],
        |page| bound_lines::put_bounds(page, answer),
    );
}

pub fn answer_list(name: &[u8], answer: Result<u64, Refusal>, list: &[i64; LIST])
    requires { length name.now ≤ 49 }
{
    write(
        &mut [0; LIST_PAGE],
        |page| list_lines::put_list(page, name, answer, list),
    );
}

pub fn answer_trail(answer: Result<u64, Refusal>, list: &[i64; ROWS]) {
    write(
        &mut [0; ROWS_PAGE],
        |page| trail_lines::put_trail(page, answer, list),
    );
}

// A line, by its number, that is none of the commands.
pub fn answer_wrong(number: u64) {
    write(&mut [0; LINE_PAGE], |page| page.put_line(b"error ", number));
}

// The OPB program of document 01 on a lent page: a text is read and loaded, its heads are given in order at level 0, propagate is called,
// and the answer, the trail and the bounds of each sentence are put on the page. Load leaves the area whole, and no call after it checks
// the area again.
#![tactic(auto)]

ghost use Rattle.std.specs.Prelude.{◌≡◌, ◌+◌, ◌≤◌};
ghost use Rattle.types.specs.Limits.{document};
ghost use Rattle.calls.specs.Calls.{area_state};
ghost use Rattle.columns.specs.Columns.{held};
ghost use Rattle.pages.specs.Page.{Puts};
ghost use Rattle.listing_heads.specs.Heads.{IsWhole};
ghost use Rattle.listing.specs.Output.{listing, output, Prints};
ghost use Rattle.listing.specs.Inner.Steps.{Answers};

use columns::Columns;
use opb_rows::ColumnsMut;
use pages::Page;
use types::{Atom, Counters, Limits};
use whole::WholeArea;

// The columns and the area that every text within the limits has room in.
const SENTENCES: usize = Limits::SENTENCES as usize;

const ENTRIES: usize = Limits::ENTRIES as usize;

const WORDS: usize = 4 * Limits::ATOMS as usize + 8 * SENTENCES + 2 * ENTRIES;

// Propagate on a whole area, and the listing.
fn put_listing(page: &mut Page<'_>, area: &mut [u64], counters: Counters)
    requires { IsWhole area.old counters }
    ensures { Puts page.old page.new (listing (area_state document area.old)) }
{
    let stopped = propagate::propagate_whole(area, counters);
    answer_lines::put_stopped(page, stopped);
    let whole = WholeArea {
        area,
        lim: Limits::document(),
        counters: stopped.counters(),
    };
    listing_lines::put_state(page, whole);
}

// ---- the run

// The text's sentences loaded into an area of the program's own, and what follows from the heads.
fn list_sentences(page: &mut Page<'_>, variables: u64, constraints: u64, columns: Columns<'_>)
    requires { variables + constraints ≤ document.atoms }
    ensures { Answers page.old page.new variables constraints (held columns.entry) }
{
    let mut area = [0u64; WORDS];
    match load::load(&mut area, Atom(variables + constraints), columns) {
        Ok(_) => {
            let given = listing_heads::give_heads(&mut area, variables, constraints);
            put_listing(page, &mut area, given);
        }
        Err(refusal) => {
            let told = refusal.answer();
            page.put_pair(b"refused ", told.code, told.sentence.0);
        }
    }
}

// The output for a text, put on a page.
fn put_output(page: &mut Page<'_>, text: &[u8])
    ensures { Puts page.old page.new (output text.now) }
{
    let mut heads = [0u64; SENTENCES];
    let mut kinds = [0u64; SENTENCES];
    let mut sides = [0u64; SENTENCES];
    let mut bounds = [0i64; SENTENCES];
    let mut counts = [0u64; SENTENCES];
    let mut weights = [0i64; ENTRIES];
    let mut literals = [0i64; ENTRIES];
    let mut lent = ColumnsMut {
        heads: &mut heads,
        kinds: &mut kinds,
        sides: &mut sides,
        bounds: &mut bounds,
        counts: &mut counts,
        weights: &mut weights,
        literals: &mut literals,
    };
    let read = opb_text::read_text(text, &mut lent);
    match read {
        Ok(read) => {
            let n = read.sentences as usize;
            let e = read.entries as usize;
            let columns = Columns {
                heads: &heads[..n],
                kinds: &kinds[..n],
                sides: &sides[..n],
                bounds: &bounds[..n],
                counts: &counts[..n],
                weights: &weights[..e],
                literals: &literals[..e],
            };
            list_sentences(page, read.variables, read.constraints, columns);
        }
        Err(refusal) => page.put_pair(b"refused ", refusal.number(), refusal.value()),
    }
}

// The page is given back: the place behind its text.
fn ended(page: Page<'_>) -> usize
    ensures place { result ≡ page.entry.end }
    ensures bytes { page.exit.0.now ≡ page.entry.bytes.now }
{
    page.end
}

// The output for a text, on the page: its length, or a number past the page's end where the page is too short.
pub fn run(text: &[u8], page: &mut [u8]) -> usize
    ensures { Prints text.now page.old page.new result }
{
    let mut page = Page::new(page);
    put_output(&mut page, text);
    ended(page)
}

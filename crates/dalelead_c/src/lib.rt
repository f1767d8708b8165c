// The library for searches written in C, C++ or Rust: functions on numbers and slices, at the limits of document 01, each over the function
// under given limits. include/dalelead.h says what each asks, gives and refuses.
#![tactic(auto)]

ghost use Rattle.std.specs.Prelude.{◌≡◌};
ghost use Rattle.types.specs.Limits.{document};
ghost use Rattle.book.specs.Table.{give, open_level, take_back, propagate, search, bounds, explain, explain_conflict, origin, list_trail};
ghost use Rattle.whole.specs.Parts.{counters_with};
ghost use Rattle.columns.specs.Columns.{seven_columns};
ghost use Rattle.c_interface.specs.Interface.{need_for, next_counters, next_counted, next_searched, Changes, ReportsBounds, ReportsList, LoadsFor};

use columns::Columns;
use types::{Atom, Counters, Level, Limits, Sentence};

// The counters that C hands over.
fn held(length: u64, level: u64) -> Counters
    ensures { result ≡ record { length = length; level = record { 0 = level } } }
{
    Counters {
        length,
        level: Level(level),
    }
}

// The words that an area needs, 0 where a count is above its limit or there is no atom.
#[unsafe(no_mangle)]
pub extern "C" fn dalelead_need(atoms: u64, sentences: u64, entries: u64) -> u64
    ensures { result ≡ need_for document atoms sentences entries }
{
    c_load::need(Limits::document(), atoms, sentences, entries)
}

// Load: the columns are checked and stored in the area; the counters are 0 and 0.
#[unsafe(no_mangle)]
pub extern "C" fn dalelead_load(
    area: &mut [u64],
    atoms: u64,
    heads: &[u64],
    kinds: &[u64],
    sides: &[u64],
    bounds: &[i64],
    counts: &[u64],
    weights: &[i64],
    literals: &[i64],
    next: &mut [u64],
) -> u64
    ensures { LoadsFor document area.old area.new atoms (seven_columns heads.now kinds.now sides.now bounds.now counts.now weights.now literals.now) next.old next.new result }
{
    let columns = Columns {
        heads,
        kinds,
        sides,
        bounds,
        counts,
        weights,
        literals,
    };
    c_load::load(area, Limits::document(), Atom(atoms), columns, next)
}

// Give: a literal goes on the trail at the current level.
#[unsafe(no_mangle)]
pub extern "C" fn dalelead_give(
    area: &mut [u64],
    length: u64,
    level: u64,
    literal: i64,
    next: &mut [u64],
) -> u64
    ensures { Changes document area.old area.new (counters_with length level) (give literal) next_counters next.old next.new result }
{
    c_interface::number(c_calls::give(area, Limits::document(), held(length, level), literal, next))
}

// Open: the level rises by one.
#[unsafe(no_mangle)]
pub extern "C" fn dalelead_open(area: &mut [u64], length: u64, level: u64, next: &mut [u64]) -> u64
    ensures { Changes document area.old area.new (counters_with length level) open_level next_counters next.old next.new result }
{
    c_interface::number(c_calls::open(area, Limits::document(), held(length, level), next))
}

// Take back to level k: all literals of higher levels go.
#[unsafe(no_mangle)]
pub extern "C" fn dalelead_take_back(
    area: &mut [u64],
    length: u64,
    level: u64,
    k: u64,
    next: &mut [u64],
) -> u64
    ensures { Changes document area.old area.new (counters_with length level) (take_back k) next_counters next.old next.new result }
{
    c_interface::number(c_calls::take_back(
        area,
        Limits::document(),
        held(length, level),
        Level(k),
        next,
    ))
}

// Propagate: what follows goes on the trail. The value is the sentence in conflict, 0 at still.
#[unsafe(no_mangle)]
pub extern "C" fn dalelead_propagate(
    area: &mut [u64],
    length: u64,
    level: u64,
    next: &mut [u64],
) -> u64
    ensures { Changes document area.old area.new (counters_with length level) propagate (next_counted area.old) next.old next.new result }
{
    c_interface::number(c_calls::propagate(area, Limits::document(), held(length, level), next))
}

// The search loop over a list of literals to try. The value is the sentence in conflict, 0 where there is none.
#[unsafe(no_mangle)]
pub extern "C" fn dalelead_search(
    area: &mut [u64],
    length: u64,
    level: u64,
    literals: &[i64],
    next: &mut [u64],
) -> u64
    ensures { Changes document area.old area.new (counters_with length level) (search literals.now) next_searched next.old next.new result }
{
    c_interface::number(c_calls::search(
        area,
        Limits::document(),
        held(length, level),
        literals,
        next,
    ))
}

// The least and the greatest value of a sentence over the full assignments that agree with the trail.
#[unsafe(no_mangle)]
pub extern "C" fn dalelead_bounds(
    area: &[u64],
    length: u64,
    level: u64,
    sentence: u64,
    out: &mut [i64],
) -> u64
    ensures { ReportsBounds document area.now (counters_with length level) (bounds sentence) out.old out.new result }
{
    c_interface::number(c_reports::bounds(
        area,
        Limits::document(),
        held(length, level),
        Sentence(sentence),
        out,
    ))
}

// The literal, and the negations of its causes.
#[unsafe(no_mangle)]
pub extern "C" fn dalelead_explain(
    area: &[u64],
    length: u64,
    level: u64,
    literal: i64,
    list: &mut [i64],
) -> u64
    ensures { ReportsList document area.now (counters_with length level) (explain literal) list.old list.new result }
{
    c_interface::number(c_reports::explain(
        area,
        Limits::document(),
        held(length, level),
        literal,
        list,
    ))
}

// The negations of the literals that a sentence is in conflict with.
#[unsafe(no_mangle)]
pub extern "C" fn dalelead_explain_conflict(
    area: &[u64],
    length: u64,
    level: u64,
    sentence: u64,
    list: &mut [i64],
) -> u64
    ensures { ReportsList document area.now (counters_with length level) (explain_conflict sentence) list.old list.new result }
{
    c_interface::number(c_reports::explain_conflict(
        area,
        Limits::document(),
        held(length, level),
        Sentence(sentence),
        list,
    ))
}

// The given literals that a literal rests on.
#[unsafe(no_mangle)]
pub extern "C" fn dalelead_origin(
    area: &[u64],
    length: u64,
    level: u64,
    literal: i64,
    list: &mut [i64],
) -> u64
    ensures { ReportsList document area.now (counters_with length level) (origin literal) list.old list.new result }
{
    c_interface::number(c_reports::origin(
        area,
        Limits::document(),
        held(length, level),
        literal,
        list,
    ))
}

// Literal, level and reason of each row.
#[unsafe(no_mangle)]
pub extern "C" fn dalelead_trail(area: &[u64], length: u64, level: u64, list: &mut [i64]) -> u64
    ensures { ReportsList document area.now (counters_with length level) list_trail list.old list.new result }
{
    c_interface::number(c_reports::trail(area, Limits::document(), held(length, level), list))
}

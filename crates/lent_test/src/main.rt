// Both forms that lend structs, run on document 01's example M4 (head 3, sum {(1,1),(2,2)} <= 1): loaded from a list of records, given and
// propagated through counters in the caller's hands. A line for each call: its numbers, and the counters after it. Between them a literal
// that is on the trail, and counters that are not the area's: both are refused, and the counters stay. Then loaded again and searched.
#![tactic(auto)]

ghost use Rattle.types.specs.Limits.{document};
ghost use Rattle.columns.specs.Answers.{answer_of};
ghost use Rattle.load.specs.Load.{Loads};
ghost use Rattle.lent_records.specs.Columns.{with_records};
ghost use Rattle.lent.specs.Lent.{GivesIn, PropagatesIn, SearchesIn};

use calls::Refusal;
use lent::{SearchStop, Stop};
use lent_records::{Sentences, Weighted};
use types::{Atom, Counters, Level};

// Two records by value, lent as a list.
fn load_two(
    area: &mut [u64],
    atoms: Atom,
    sentences: Sentences<'_>,
    entries: [Weighted; 2],
) -> Result<Counters, columns::Refusal>
    ensures { Loads document area.old area.new atoms.0 (with_records sentences.entry entries) (answer_of result) }
{
    lent::load_records(area, atoms, sentences, &entries)
}

// Counters in the caller's hands, lent to give, to propagate and to the search loop.
fn give_held(area: &mut [u64], held: &mut Counters, literal: i64) -> Result<(), Refusal>
    ensures { GivesIn document area.old area.new held.old held.new literal result }
{
    lent::give_in(area, held, literal)
}

fn propagate_held(area: &mut [u64], held: &mut Counters) -> Result<Stop, Refusal>
    ensures { PropagatesIn document area.old area.new held.old held.new result }
{
    lent::propagate_in(area, held)
}

fn search_held(
    area: &mut [u64],
    held: &mut Counters,
    literals: &[i64],
) -> Result<SearchStop, Refusal>
    ensures { SearchesIn document area.old area.new held.old held.new literals.now result }
{
    lent::search_in(area, held, literals)
}

// ---- what is written

fn show_give(rt: &impl Print, area: &mut [u64], held: &mut Counters, literal: i64) {
    let code = test_parts::code(give_held(area, held, literal));
    let _ = println!(rt; "give {code} {} {}", held.length, held.level.0);
}

fn show_propagate(rt: &impl Print, area: &mut [u64], held: &mut Counters) {
    let (code, sentence, count) = match propagate_held(area, held) {
        Ok(stop) => (0, stop.sentence.map_or(0, |k| k.0), stop.count),
        Err(refusal) => (refusal.code(), 0, 0),
    };
    let _ = println!(rt;
        "propagate {code} {sentence} {count} {} {}",
        held.length, held.level.0
    );
}

fn show_search(rt: &impl Print, area: &mut [u64], held: &mut Counters, literals: &[i64]) {
    let (code, sentence, count, gone) = match search_held(area, held, literals) {
        Ok(end) => (
            0,
            end.stop.sentence.map_or(0, |k| k.0),
            end.stop.count,
            end.gone,
        ),
        Err(refusal) => (refusal.code(), 0, 0, 0),
    };
    let _ = println!(rt;
        "search {code} {sentence} {count} {gone} {} {}",
        held.length, held.level.0
    );
}

fn show_load(rt: &impl Print, area: &mut [u64], first: Weighted, second: Weighted) {
    let answer = load_two(
        area,
        Atom(3),
        Sentences {
            heads: &[3],
            kinds: &[0],
            sides: &[1],
            bounds: &[1],
            counts: &[2],
        },
        [first, second],
    );
    let (code, sentence) = test_parts::loaded(answer);
    let _ = println!(rt; "load {code} {sentence}");
}

fn main(rt: HostRuntime) {
    let mut area = [0u64; 24];
    let one = Weighted {
        weight: 1,
        literal: 1,
    };
    let two = Weighted {
        weight: 2,
        literal: 2,
    };
    let strange = Weighted {
        weight: 2,
        literal: 4,
    };
    show_load(&rt, &mut area, one, strange);
    show_load(&rt, &mut area, one, two);
    let mut held = Counters::start();
    show_give(&rt, &mut area, &mut held, 3);
    show_give(&rt, &mut area, &mut held, 1);
    show_give(&rt, &mut area, &mut held, 3);
    let mut other = Counters {
        length: 1,
        level: Level(0),
    };
    show_propagate(&rt, &mut area, &mut other);
    show_propagate(&rt, &mut area, &mut held);
    show_load(&rt, &mut area, one, two);
    held = Counters::start();
    show_search(&rt, &mut area, &mut held, &[3, 2, 4]);
    show_search(&rt, &mut area, &mut held, &[3, 2, 1]);
}

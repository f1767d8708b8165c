// The public library: the calls of document 01 at its limits. No call asks anything of its caller: it checks its own numbers, lists and
// work area, and refuses by document 01's numbers.
#![tactic(auto)]

ghost use Rattle.std.specs.Prelude.{◌≡◌, IfOk};
ghost use Rattle.types.specs.Limits.{document};
ghost use Rattle.types.specs.Counters.{start};
ghost use Rattle.columns.specs.Columns.{held};
ghost use Rattle.columns.specs.Answers.{answer_of};
ghost use Rattle.load.specs.Load.{Loads};
ghost use Rattle.dalelead.specs.Public.{Gives, Opens, TakesBack, Propagates, SearchesFor, ReadsBounds, ListsExplanation, ListsConflict, ListsOrigin, ListsTrail};

use calls::{Bounds, Refusal};
use columns::Columns;
use propagate::Propagated;
use search::Searched;
use types::{Atom, Counters, Level, Limits, Sentence};

// Load: the columns are checked and stored, merged, in the area; the counters start at 0 and 0.
pub fn load(
    area: &mut [u64],
    atoms: Atom,
    columns: Columns<'_>,
) -> Result<Counters, columns::Refusal>
    ensures loads { Loads document area.old area.new atoms.0 (held columns.entry) (answer_of result) }
    ensures counters { IfOk result (λ c. c ≡ start) }
{
    load::load(area, atoms, columns)
}

// Give: a literal is put on at the current level.
pub fn give(area: &mut [u64], counters: Counters, literal: i64) -> Result<Counters, Refusal>
    ensures { Gives document area.old area.new counters literal result }
{
    give::give_within(area, Limits::document(), counters, literal)
}

// Open: the level rises by one.
pub fn open_level(area: &mut [u64], counters: Counters) -> Result<Counters, Refusal>
    ensures { Opens document area.old area.new counters result }
{
    levels::open_within(area, Limits::document(), counters)
}

// Take back to a level: all literals of higher levels go.
pub fn take_back(area: &mut [u64], counters: Counters, level: Level) -> Result<Counters, Refusal>
    ensures { TakesBack document area.old area.new counters level.0 result }
{
    levels::take_back_within(area, Limits::document(), counters, level)
}

// Propagate: what follows is put on, until no sentence has anything to say or one is in conflict.
pub fn propagate(area: &mut [u64], counters: Counters) -> Result<Propagated, Refusal>
    ensures { Propagates document area.old area.new counters result }
{
    propagate::propagate_within(area, Limits::document(), counters)
}

// The search loop: propagate; from still open a level and give the next literal of the list whose atom is open, until the list is done, a
// sentence is in conflict or the highest level is reached. Its answer says how many literals of the list it went through.
pub fn search(area: &mut [u64], counters: Counters, literals: &[i64]) -> Result<Searched, Refusal>
    ensures { SearchesFor document area.old area.new counters literals.now result }
{
    search::search_within(area, Limits::document(), counters, literals)
}

// The least and the greatest value of a sentence, for the set as written, over the full assignments that agree with the trail.
pub fn bounds(area: &[u64], counters: Counters, sentence: Sentence) -> Result<Bounds, Refusal>
    ensures { ReadsBounds document area.now counters sentence.0 result }
{
    reports::bounds_within(area, Limits::document(), counters, sentence)
}

// The explanation of a derived literal: the literal, then the negations of the literals put on before it whose atoms its reason has.
pub fn explain(
    area: &[u64],
    counters: Counters,
    literal: i64,
    list: &mut [i64],
) -> Result<u64, Refusal>
    ensures { ListsExplanation document area.now counters literal list.old list.new result }
{
    explain::explain_within(area, Limits::document(), counters, literal, list)
}

// The explanation of a conflict: the negations of the literals on the trail whose atoms the sentence has.
pub fn explain_conflict(
    area: &[u64],
    counters: Counters,
    sentence: Sentence,
    list: &mut [i64],
) -> Result<u64, Refusal>
    ensures { ListsConflict document area.now counters sentence.0 list.old list.new result }
{
    explain::explain_conflict_within(area, Limits::document(), counters, sentence, list)
}

// The given literals that a literal of the trail rests on, in the order of the trail.
pub fn origin(
    area: &[u64],
    counters: Counters,
    literal: i64,
    list: &mut [i64],
) -> Result<u64, Refusal>
    ensures { ListsOrigin document area.now counters literal list.old list.new result }
{
    origin::origin_within(area, Limits::document(), counters, literal, list)
}

// The trail: literal, level and reason of each row, in order.
pub fn list_trail(area: &[u64], counters: Counters, list: &mut [i64]) -> Result<u64, Refusal>
    ensures { ListsTrail document area.now counters list.old list.new result }
{
    reports::list_trail_within(area, Limits::document(), counters, list)
}

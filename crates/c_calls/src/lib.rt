// The calls that change the area, for C, under given limits. Each checks the area, asks for its refusal, then for the room that it needs,
// and acts last. `c_interface::number` makes C's number of what it answers.
#![tactic(auto)]

ghost use Rattle.std.specs.Prelude.{◌<◌};
ghost use Rattle.types.specs.Limits.{Fitting};
ghost use Rattle.book.specs.Table.{give, open_level, take_back, propagate, search};
ghost use Rattle.calls.specs.Calls.{counted};
ghost use Rattle.c_interface.specs.Inner.Numbers.{number_in, value_in};
ghost use Rattle.c_interface.specs.Interface.{next_counters, next_counted, next_searched, Changes};

use calls::Refusal;
use propagate::Propagated;
use types::{Counters, Level, Limits};

// Give: a literal goes on the trail at the current level.
pub fn give(
    area: &mut [u64],
    lim: Limits,
    counters: Counters,
    literal: i64,
    next: &mut [u64],
) -> Result<u64, Refusal>
    requires { Fitting lim }
    ensures changes { Changes lim area.old area.new (counted counters) (give literal) next_counters next.old next.new (number_in result) }
    ensures small { value_in result < 4294967296 }
{
    if !whole::is_whole(area, lim, counters) {
        return Err(Refusal::NotWhole);
    }
    c_interface::ready(give::open_atom(area, literal), 2, next.len())?;
    let given = give::give_whole(area, counters, literal)?;
    c_interface::put_front(next, [given.length, given.level.0]);
    Ok(0)
}

// Open: the level rises by one.
pub fn open(
    area: &mut [u64],
    lim: Limits,
    counters: Counters,
    next: &mut [u64],
) -> Result<u64, Refusal>
    requires { Fitting lim }
    ensures changes { Changes lim area.old area.new (counted counters) open_level next_counters next.old next.new (number_in result) }
    ensures small { value_in result < 4294967296 }
{
    if !whole::is_whole(area, lim, counters) {
        return Err(Refusal::NotWhole);
    }
    c_interface::ready(levels::check_open(lim, counters.level), 2, next.len())?;
    let opened = levels::open_whole(area, lim, counters)?;
    c_interface::put_front(next, [opened.length, opened.level.0]);
    Ok(0)
}

// Take back to a level: all literals of higher levels go.
pub fn take_back(
    area: &mut [u64],
    lim: Limits,
    counters: Counters,
    level: Level,
    next: &mut [u64],
) -> Result<u64, Refusal>
    requires { Fitting lim }
    ensures changes { Changes lim area.old area.new (counted counters) (take_back level.0) next_counters next.old next.new (number_in result) }
    ensures small { value_in result < 4294967296 }
{
    if !whole::is_whole(area, lim, counters) {
        return Err(Refusal::NotWhole);
    }
    c_interface::ready(
        levels::check_take_back(counters.level, level),
        2,
        next.len(),
    )?;
    let left = levels::take_back_whole(area, counters, level)?;
    c_interface::put_front(next, [left.length, left.level.0]);
    Ok(0)
}

// Propagate: what follows goes on the trail. The value is the sentence in conflict, 0 at still.
pub fn propagate(
    area: &mut [u64],
    lim: Limits,
    counters: Counters,
    next: &mut [u64],
) -> Result<u64, Refusal>
    requires { Fitting lim }
    ensures changes { Changes lim area.old area.new (counted counters) propagate (next_counted area.old) next.old next.new (number_in result) }
    ensures small { value_in result < 4294967296 }
{
    if !whole::is_whole(area, lim, counters) {
        return Err(Refusal::NotWhole);
    }
    c_interface::ready(Ok(()), 3, next.len())?;
    match propagate::propagate_whole(area, counters) {
        Propagated::Still(count, after) => {
            c_interface::put_front(next, [after.length, after.level.0, count]);
            Ok(0)
        }
        Propagated::Conflict(sentence, count, after) => {
            c_interface::put_front(next, [after.length, after.level.0, count]);
            Ok(sentence.0)
        }
    }
}

// The search loop over a list of literals to try. The value is the sentence in conflict, 0 where there is none.
pub fn search(
    area: &mut [u64],
    lim: Limits,
    counters: Counters,
    literals: &[i64],
    next: &mut [u64],
) -> Result<u64, Refusal>
    requires { Fitting lim }
    ensures changes { Changes lim area.old area.new (counted counters) (search literals.now) next_searched next.old next.new (number_in result) }
    ensures small { value_in result < 4294967296 }
{
    if !whole::is_whole(area, lim, counters) {
        return Err(Refusal::NotWhole);
    }
    c_interface::ready(search::check_search(area, literals), 4, next.len())?;
    let told = search::search_whole(area, lim, counters, literals);
    let after = told.counters;
    c_interface::put_front(next, [after.length, after.level.0, told.count, told.gone]);
    Ok(match told.sentence {
        Some(sentence) => sentence.0,
        None => 0,
    })
}

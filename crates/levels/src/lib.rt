// Steps of a caller on levels: open one more, take back to one.
#![tactic(auto)]

ghost use Rattle.std.specs.Prelude.{◌≡◌, List, ℕ};
ghost use Rattle.types.specs.Limits.{Fitting};
ghost use Rattle.book.specs.Table.{open_level, take_back};
ghost use Rattle.area.specs.Layout.{level_of};
ghost use Rattle.calls.specs.Refusals.{code_in};
ghost use Rattle.calls.specs.Calls.{counted, counters_after, done_returned, Acts};
ghost use Rattle.whole.specs.Inner.Usable.{Usable};
ghost use Rattle.give.specs.Inner.Refused.{refusal_code};

use calls::Refusal;
use types::{Counters, Level, Limits};

// Whether an open on an area of that level is refused.
pub fn check_open(lim: Limits, level: Level) -> Result<(), Refusal>
    ensures { (w : List ℕ) → level_of w ≡ level.0 → code_in result ≡ refusal_code lim w open_level }
{
    if level.0 >= lim.levels {
        return Err(Refusal::HighestLevel);
    }
    Ok(())
}

// On a whole area: only the level in word 0 rises.
pub fn open_whole(area: &mut [u64], lim: Limits, counters: Counters) -> Result<Counters, Refusal>
    requires { Usable lim area.old (counted counters) }
    ensures { Acts lim area.old area.new (counted counters) (counted (counters_after counters result)) open_level (done_returned result) }
{
    check_open(lim, counters.level)?;
    let level = counters.level.0 + 1;
    let n = area::atoms_of(area);
    trail::set_header(area, n, counters.length as usize, level);
    Ok(Counters {
        level: Level(level),
        ..counters
    })
}

pub fn open_within(area: &mut [u64], lim: Limits, counters: Counters) -> Result<Counters, Refusal>
    requires { Fitting lim }
    ensures { Acts lim area.old area.new (counted counters) (counted (counters_after counters result)) open_level (done_returned result) }
{
    if !whole::is_whole(area, lim, counters) {
        return Err(Refusal::NotWhole);
    }
    open_whole(area, lim, counters)
}

// Whether taking back to a level on an area of that level is refused.
pub fn check_take_back(level: Level, to: Level) -> Result<(), Refusal>
    ensures { (lim : Limits) (w : List ℕ) → level_of w ≡ level.0 → code_in result ≡ refusal_code lim w (take_back to.0) }
{
    if to.0 > level.0 {
        return Err(Refusal::LevelAbove);
    }
    Ok(())
}

// On a whole area: the rows above a level go, and each sentence that has an atom of theirs is renewed and marked as pending.
pub fn take_back_whole(area: &mut [u64], counters: Counters, to: Level) -> Result<Counters, Refusal>
    requires { (lim : Limits) × Usable lim area.old (counted counters) }
    ensures { (lim : Limits) → Usable lim area.old (counted counters) → Acts lim area.old area.new (counted counters) (counted (counters_after counters result)) (take_back to.0) (done_returned result) }
{
    check_take_back(counters.level, to)?;
    if to.0 == counters.level.0 {
        return Ok(counters);
    }
    let sizes = area::sizes_of(area);
    let mut touched = [0u8; 4097];
    let left = trail::cut(
        area,
        sizes.atoms,
        counters.length as usize,
        to.0,
        &mut touched,
    );
    trail::set_header(area, sizes.atoms, left, to.0);
    refresh::refresh(area, sizes, &touched);
    Ok(Counters {
        length: left as u64,
        level: to,
    })
}

pub fn take_back_within(
    area: &mut [u64],
    lim: Limits,
    counters: Counters,
    to: Level,
) -> Result<Counters, Refusal>
    requires { Fitting lim }
    ensures { Acts lim area.old area.new (counted counters) (counted (counters_after counters result)) (take_back to.0) (done_returned result) }
{
    if !whole::is_whole(area, lim, counters) {
        return Err(Refusal::NotWhole);
    }
    take_back_whole(area, counters, to)
}

// Propagate: the loop of steps on a whole area, and its answer.
#![tactic(auto)]

ghost use Rattle.std.specs.Prelude.{◌≡◌, IfOk};
ghost use Rattle.types.specs.Limits.{Fitting};
ghost use Rattle.book.specs.Table.{propagate};
ghost use Rattle.calls.specs.Calls.{counted, Acts};
ghost use Rattle.whole.specs.Inner.Usable.{Usable};
ghost use Rattle.give.specs.Inner.Ready.{Ready};
ghost use Rattle.propagate.specs.Propagate.{stop_returned, propagated_returned, counters_of, counters_stopped, SentenceNamed};

use calls::Refusal;
use types::{Counters, Limits, Sentence};

// Still, with the number of literals put on; or a conflict, with its sentence and that number. Each with the counters after the call.
#[derive(Clone, Copy, Debug, PartialEq, Eq)]
pub enum Propagated {
    Still(u64, Counters),
    Conflict(Sentence, u64, Counters),
}

impl Propagated {
    pub fn counters(self) -> Counters
        ensures { result ≡ counters_of self }
    {
        match self {
            Propagated::Still(_, counters) | Propagated::Conflict(_, _, counters) => counters,
        }
    }
}

// Every step of the loop on a whole area, from the current level; the level stays.
pub fn propagate_whole(area: &mut [u64], counters: Counters) -> Propagated
    requires { Ready area.old (counted counters) }
    ensures acts { (lim : Limits) → Usable lim area.old (counted counters) → Acts lim area.old area.new (counted counters) (counted (counters_of result)) propagate (stop_returned result) }
    ensures named { SentenceNamed result }
{
    let sizes = area::sizes_of(area);
    let end = derive::run(area, sizes, counters.length as usize, counters.level.0);
    let length = end.length as u64;
    let put = length - counters.length;
    let next = Counters { length, ..counters };
    match end.sentence {
        None => Propagated::Still(put, next),
        Some(sentence) => Propagated::Conflict(sentence, put, next),
    }
}

pub fn propagate_within(
    area: &mut [u64],
    lim: Limits,
    counters: Counters,
) -> Result<Propagated, Refusal>
    requires { Fitting lim }
    ensures acts { Acts lim area.old area.new (counted counters) (counted (counters_stopped counters result)) propagate (propagated_returned result) }
    ensures named { IfOk result SentenceNamed }
{
    if !whole::is_whole(area, lim, counters) {
        return Err(Refusal::NotWhole);
    }
    Ok(propagate_whole(area, counters))
}

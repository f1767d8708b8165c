// The search loop over a lent list of literals to try.
#![tactic(auto)]

ghost use Rattle.std.specs.Prelude.{◌≡◌, ◌≤◌, length, IfOk};
ghost use Rattle.types.specs.Limits.{Fitting};
ghost use Rattle.book.specs.Table.{search};
ghost use Rattle.calls.specs.Calls.{counted, Acts};
ghost use Rattle.give.specs.Inner.Refused.{refusal_code};
ghost use Rattle.candidates.specs.Inner.Candidates.{Searchable};
ghost use Rattle.calls.specs.Refusals.{code_in};
ghost use Rattle.search.specs.Search.{counters_searched, searched_returned, Named};
ghost use Rattle.search.specs.Inner.Turn.{Summable, unopposed_with, ended_by, Ends};

use calls::Refusal;
use propagate::Propagated;
use types::{Counters, Limits, Sentence};

// The sentence in conflict; the literals derived, over all turns; the literals of the list gone through; the counters after it.
#[derive(Clone, Copy, Debug, PartialEq, Eq)]
pub struct Searched {
    pub sentence: Option<Sentence>,
    pub count: u64,
    pub gone: u64,
    pub counters: Counters,
}

// The end with no sentence in conflict.
fn unopposed(count: u64, gone: u64, counters: Counters) -> Searched
    ensures { result ≡ unopposed_with count gone counters }
{
    Searched {
        sentence: None,
        count,
        gone,
        counters,
    }
}

// Whether a search on an area is refused.
pub fn check_search(area: &[u64], literals: &[i64]) -> Result<(), Refusal>
    requires { 1 ≤ length area.now }
    ensures { (lim : Limits) → code_in result ≡ refusal_code lim area.now (search literals.now) }
{
    if !candidates::all_known(literals, area::atoms_of(area)) {
        return Err(Refusal::NoAtom);
    }
    Ok(())
}

// An answer of propagate as the end, with so many literals derived before and so many of the list gone through.
fn ended(answer: Propagated, total: u64, gone: u64) -> Searched
    requires { Summable answer total }
    ensures { result ≡ ended_by answer total gone }
{
    match answer {
        Propagated::Still(count, counters) => Searched {
            sentence: None,
            count: total + count,
            gone,
            counters,
        },
        Propagated::Conflict(sentence, count, counters) => Searched {
            sentence: Some(sentence),
            count: total + count,
            gone,
            counters,
        },
    }
}

// On a whole area: each answer of propagate is taken apart at the top, and only still goes on.
pub fn search_whole(area: &mut [u64], lim: Limits, counters: Counters, literals: &[i64]) -> Searched
    requires { Searchable lim area.old (counted counters) literals.now }
    ensures ends { Ends lim area.old area.new literals.now result }
    ensures named { Named result.sentence }
{
    let mut gone: usize = 0;
    let mut total: u64 = 0;
    let mut current = counters;
    // Stays: a `loop`, left by what propagate answers: how many turns there are is known to the proof alone.
    loop {
        let answer = propagate::propagate_whole(area, current);
        let Propagated::Still(count, after) = answer else {
            return ended(answer, total, gone as u64);
        };
        total += count;
        let Some(j) = candidates::next_open(area, literals, gone) else {
            return unopposed(total, literals.len() as u64, after);
        };
        let tried = candidates::try_literal(area, lim, after, literals[j]);
        let Ok(next) = tried else {
            return unopposed(total, j as u64, after);
        };
        current = next;
        gone = j + 1;
    }
}

// Propagate; from still open a level and give the next literal of the list whose atom is open, until the list is done, a sentence is in
// conflict, or the highest level is reached.
pub fn search_within(
    area: &mut [u64],
    lim: Limits,
    counters: Counters,
    literals: &[i64],
) -> Result<Searched, Refusal>
    requires { Fitting lim }
    ensures acts { Acts lim area.old area.new (counted counters) (counted (counters_searched counters result)) (search literals.now) (searched_returned result) }
    ensures named { IfOk result (λ s. Named s.sentence) }
{
    if !whole::is_whole(area, lim, counters) {
        return Err(Refusal::NotWhole);
    }
    check_search(area, literals)?;
    Ok(search_whole(area, lim, counters, literals))
}

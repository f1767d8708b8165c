// The two forms of document 01 that lend structs: load's entries lent as a list of records, and the counters lent to be
// changed in the caller's hands. Each function is thin: a public call of `dalelead` does the work, and its contract is the contract here.
#![tactic(auto)]

ghost use Rattle.std.specs.Prelude.{◌≡◌, IfOk};
ghost use Rattle.types.specs.Limits.{document};
ghost use Rattle.types.specs.Counters.{start};
ghost use Rattle.columns.specs.Answers.{answer_of};
ghost use Rattle.load.specs.Load.{Loads};
ghost use Rattle.lent_records.specs.Columns.{with_records};
ghost use Rattle.lent_records.specs.Inner.Copy.{CopyOf};
ghost use Rattle.lent.specs.Lent.{GivesIn, OpensIn, TakesBackIn, PropagatesIn, SearchesIn};

use calls::Refusal;
use lent_records::{Copied, Sentences, Weighted};
use propagate::Propagated;
use types::{Atom, Counters, Level, Sentence};

// Where propagate stopped: the sentence in conflict, and the number of literals derived.
#[derive(Clone, Copy, Debug, PartialEq, Eq)]
pub struct Stop {
    pub sentence: Option<Sentence>,
    pub count: u64,
}

// Where the search loop did, over all turns, and the number of literals of the list that it went through.
#[derive(Clone, Copy, Debug, PartialEq, Eq)]
pub struct SearchStop {
    pub stop: Stop,
    pub gone: u64,
}

// ---- load, from a list of records

// Every record in turn: the one loop over the records.
fn copy_records(records: &[Weighted]) -> Copied
    ensures { CopyOf document.entries records.now result }
{
    let mut copied = lent_records::blank();
    for (i, record) in records.iter().enumerate() {
        lent_records::copy_one(&mut copied, i, *record);
    }
    copied.count = records.len();
    copied
}

// Load, its entries as a list of records.
pub fn load_records(
    area: &mut [u64],
    atoms: Atom,
    sentences: Sentences<'_>,
    entries: &[Weighted],
) -> Result<Counters, columns::Refusal>
    ensures loads { Loads document area.old area.new atoms.0 (with_records sentences.entry entries.now) (answer_of result) }
    ensures counters { IfOk result (λ c. c ≡ start) }
{
    let copied = copy_records(entries);
    lent_records::load_copied(area, atoms, sentences, &copied)
}

// ---- the counters in the caller's hands: a refused call leaves them as they were

// Give, with the counters in the caller's hands.
pub fn give_in(area: &mut [u64], counters: &mut Counters, literal: i64) -> Result<(), Refusal>
    ensures { GivesIn document area.old area.new counters.old counters.new literal result }
{
    *counters = dalelead::give(area, *counters, literal)?;
    Ok(())
}

// Open, likewise.
pub fn open_in(area: &mut [u64], counters: &mut Counters) -> Result<(), Refusal>
    ensures { OpensIn document area.old area.new counters.old counters.new result }
{
    *counters = dalelead::open_level(area, *counters)?;
    Ok(())
}

// Take back to a level, likewise.
pub fn take_back_in(area: &mut [u64], counters: &mut Counters, level: Level) -> Result<(), Refusal>
    ensures { TakesBackIn document area.old area.new counters.old counters.new level.0 result }
{
    *counters = dalelead::take_back(area, *counters, level)?;
    Ok(())
}

// Propagate, with the counters in the caller's hands.
pub fn propagate_in(area: &mut [u64], counters: &mut Counters) -> Result<Stop, Refusal>
    ensures { PropagatesIn document area.old area.new counters.old counters.new result }
{
    let answer = dalelead::propagate(area, *counters)?;
    *counters = answer.counters();
    Ok(match answer {
        Propagated::Still(count, _) => Stop {
            sentence: None,
            count,
        },
        Propagated::Conflict(sentence, count, _) => Stop {
            sentence: Some(sentence),
            count,
        },
    })
}

// The search loop, with the counters in the caller's hands.
pub fn search_in(
    area: &mut [u64],
    counters: &mut Counters,
    literals: &[i64],
) -> Result<SearchStop, Refusal>
    ensures { SearchesIn document area.old area.new counters.old counters.new literals.now result }
{
    let answer = dalelead::search(area, *counters, literals)?;
    *counters = answer.counters;
    Ok(SearchStop {
        stop: Stop {
            sentence: answer.sentence,
            count: answer.count,
        },
        gone: answer.gone,
    })
}

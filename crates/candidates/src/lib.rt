// The literals of a search's list: that all are of atoms, the next open one, and one tried at a level of its own.
#![tactic(auto)]

ghost use Rattle.decide.specs.Inner.Tells.{Tells};
ghost use Rattle.book.specs.Book as book;
ghost use Rattle.area.specs.Whole.{Whole};
ghost use Rattle.calls.specs.Calls.{area_state, counted};
ghost use Rattle.candidates.specs.Inner.Candidates.{AllKnown, NextAsked, NextIs, Tryable, Tried};

use calls::Refusal;
use types::{Counters, Limits};

// Every literal of the list is of one of n atoms.
pub fn all_known(literals: &[i64], n: usize) -> bool
    ensures { Tells result (AllKnown n literals.now) }
{
    literals
        .iter()
        .all(|&literal| literals::atom_of(literal, n).is_some())
}

// The first literal from `start` on whose atom is not on the trail.
pub fn next_open(area: &[u64], literals: &[i64], start: usize) -> Option<usize>
    requires { NextAsked area.now literals.now start }
    ensures { (lim : Limits) (c : book.Counters) → Whole lim area.now c → NextIs (area_state lim area.now) literals.now start result }
{
    let n = area::atoms_of(area);
    for j in start..literals.len() {
        if let Some(atom) = literals::atom_of(literals[j], n) {
            if area::value_at(area, n, atom) == 0 {
                return Some(j);
            }
        }
    }
    None
}

// An open literal, at a level of its own; refused at the highest level.
pub fn try_literal(
    area: &mut [u64],
    lim: Limits,
    counters: Counters,
    literal: i64,
) -> Result<Counters, Refusal>
    requires { Tryable lim area.old (counted counters) literal }
    ensures { Tried lim area.old area.new (counted counters) literal result }
{
    let opened = levels::open_whole(area, lim, counters)?;
    give::give_whole(area, opened, literal)
}

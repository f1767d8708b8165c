// Positions of the trail are marked, from a literal's own down: a cause stands before what it is a cause of, so that one pass over the
// positions, each handled once, marks all that the literal rests on.
#![tactic(auto)]

ghost use Rattle.std.specs.Prelude.{◌<◌};
ghost use Rattle.marking.specs.Inner.Marks.{Markable, CauseNamed, MarkStep, Reached, Adds};

use area::Sizes;
use extremes::Evaluable;

// Marks the positions before `limit` whose literals sentence s, counted from 0, names as causes.
fn mark_causes(area: &[u64], sizes: Sizes, s: usize, limit: usize, marks: &mut [u8])
    requires { Markable area.now sizes.atoms sizes.sentences limit marks.old × (s < sizes.sentences) }
    ensures { Adds (CauseNamed area.now sizes.atoms sizes.sentences s limit) marks.old marks.new }
{
    let sentence = Evaluable {
        area,
        sizes,
        base: sizes.record_at(s),
    };
    for place in 0..=area::merged_at(area, sentence.base) {
        if let Some(row) = causes::cause_at(sentence, place, limit) {
            marks[row] = 1;
        }
    }
}

// Handles one position: where it is marked, its causes are.
fn mark_one(area: &[u64], sizes: Sizes, position: usize, marks: &mut [u8])
    requires { Markable area.now sizes.atoms sizes.sentences position marks.old }
    ensures { Adds (MarkStep area.now sizes.atoms sizes.sentences marks.old position) marks.old marks.new }
{
    if marks[position] == 0 {
        return;
    }
    let reason = area::row_reason(area, sizes.atoms, position);
    if reason != 0 {
        mark_causes(area, sizes, reason - 1, position, marks);
    }
}

// Marks what the marked positions from `position` down rest on: handles one position, then calls itself on the one before.
pub fn mark(area: &[u64], sizes: Sizes, position: usize, marks: &mut [u8])
    requires { Markable area.now sizes.atoms sizes.sentences position marks.old }
    ensures { Adds (Reached area.now sizes.atoms sizes.sentences position marks.old) marks.old marks.new }
{
    mark_one(area, sizes, position, marks);
    if position > 0 {
        mark(area, sizes, position - 1, marks);
    }
}

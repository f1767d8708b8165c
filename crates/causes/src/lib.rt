// Where the literals of a sentence's atoms stand on the stored trail: what explanations and origins share.
#![tactic(auto)]

ghost use Rattle.std.specs.Prelude.{◌≤◌};
ghost use Rattle.area.specs.Layout.{merged_at};
ghost use Rattle.causes.specs.Inner.Causes.{CausesAsked, AtomAt, atom_of, CauseOf};

use extremes::Evaluable;

// The atom at a place of a sentence: 0 its head, j its merged entry j from 1.
fn atom_at(sentence: Evaluable<'_>, place: usize) -> usize
    requires { place ≤ merged_at sentence.area.now sentence.base }
    ensures { AtomAt sentence.entry.sizes.atoms (atom_of sentence.entry place) result }
{
    let Evaluable { area, sizes, base } = sentence;
    if place == 0 {
        return area::head_at(area, base) as usize;
    }
    (area::entry_literal_at(area, sizes, base, place - 1) / 2) as usize
}

// Where the literal of the atom at a place of that sentence stands among the first `limit` rows, if it does.
pub fn cause_at(sentence: Evaluable<'_>, place: usize, limit: usize) -> Option<usize>
    requires { CausesAsked sentence.area.now sentence.sizes.atoms limit × (place ≤ merged_at sentence.area.now sentence.base) }
    ensures { CauseOf sentence.entry place limit result }
{
    let v = area::value_at(
        sentence.area,
        sentence.sizes.atoms,
        atom_at(sentence, place),
    );
    if v == 0 {
        return None;
    }
    let position = ((v - 1) / 2) as usize;
    (position < limit).then_some(position)
}

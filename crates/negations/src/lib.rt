// The negated causes of a stored sentence: its atoms' literals among the first rows of the trail, counted, and written into a lent list.
#![tactic(auto)]

ghost use Rattle.std.specs.Prelude.{◌≡◌, ◌+◌, ◌≤◌, length};
ghost use Rattle.area.specs.Layout.{merged_at};
ghost use Rattle.causes.specs.Inner.Causes.{CausesAsked};
ghost use Rattle.negations.specs.Inner.Negations.{negations_of, NegationOf, overwritten};

use extremes::Evaluable;

// The negation of the literal of the atom at a place of the sentence, if that literal is among the first `limit` rows.
fn negation_at(sentence: Evaluable<'_>, place: usize, limit: usize) -> Option<i64>
    requires { CausesAsked sentence.area.now sentence.sizes.atoms limit × (place ≤ merged_at sentence.area.now sentence.base) }
    ensures { NegationOf sentence.entry place limit result }
{
    let row = causes::cause_at(sentence, place, limit)?;
    Some(literals::negated(area::literal_at(sentence.area, sentence.sizes.atoms, row)))
}

// How many atoms of the sentence, its head and its merged entries', have a literal among the first `limit` rows.
pub fn count_causes(sentence: Evaluable<'_>, limit: usize) -> usize
    requires { CausesAsked sentence.area.now sentence.sizes.atoms limit }
    ensures { result ≡ length (negations_of sentence.entry limit) }
{
    // Stays: tried in `chosen`, `filter(..).count()`: its contract speaks of the closure's runs, and the proof did not close.
    let mut found: usize = 0;
    for place in 0..=area::merged_at(sentence.area, sentence.base) {
        if negation_at(sentence, place, limit).is_some() {
            found += 1;
        }
    }
    found
}

// The negations of those literals, the head's first, from `start` on; the rest of the list keeps its contents.
pub fn write_causes(sentence: Evaluable<'_>, limit: usize, list: &mut [i64], start: usize)
    requires { CausesAsked sentence.area.now sentence.sizes.atoms limit × (start + length (negations_of sentence limit) ≤ length list.old) }
    ensures { list.new ≡ overwritten list.old start (negations_of sentence.entry limit) }
{
    let merged = area::merged_at(sentence.area, sentence.base);
    // Stays: where the next number goes in a lent list (no heap, so no `collect`).
    let mut at = start;
    for place in 0..=merged {
        if let Some(negation) = negation_at(sentence, place, limit) {
            list[at] = negation;
            at += 1;
        }
    }
}

// The check of the trail's reasons: each is 0, or a sentence that has the row's atom at the stored place.
#![tactic(auto)]

ghost use Rattle.std.specs.Prelude.{ℕ, ◌<◌, ◌≤◌};
ghost use Rattle.decide.specs.Inner.Tells.{Tells};
ghost use Rattle.area.specs.Whole.{Reasoned};
ghost use Rattle.reason_check.specs.Inner.Reasons.{Reasonable, ScopeAsked, HasAtom};

use area::Sizes;
use types::Limits;

// The sentence at `base` has the atom at a place of its scope: 0 the head, j from 1 merged entry j.
fn has_atom(area: &[u64], sizes: Sizes, base: usize, place: usize, atom: u64) -> bool
    requires { ScopeAsked area.now sizes.atoms sizes.sentences base × (1 ≤ atom) }
    ensures { Tells result (HasAtom area.now sizes.atoms sizes.sentences base place atom) }
{
    match place.checked_sub(1) {
        None => area::head_at(area, base) == atom,
        Some(entry) => {
            let merged = area::merged_at(area, base);
            entry < merged && area::entry_literal_at(area, sizes, base, entry) / 2 == atom
        }
    }
}

// Row `row` of the trail: its reason is 0, or a sentence that has the row's atom at the stored place.
#[tactic(auto, using(meaning::proofs::Trails::atom_half))]
fn reason_ok(area: &[u64], lim: Limits, sizes: Sizes, len: usize, row: usize) -> bool
    requires { Reasonable lim area.now sizes.atoms sizes.sentences len × (row < len) }
    ensures { Tells result (Reasoned area.now sizes.atoms sizes.sentences row) }
{
    let atom = area::literal_at(area, sizes.atoms, row) / 2;
    let place = area::place_at(area, sizes.atoms, row);
    match area::row_reason(area, sizes.atoms, row).checked_sub(1) {
        None => place == 0,
        Some(s) => s < sizes.sentences && has_atom(area, sizes, sizes.record_at(s), place, atom),
    }
}

pub fn reasons_ok(area: &[u64], lim: Limits, sizes: Sizes, len: usize) -> bool
    requires { Reasonable lim area.now sizes.atoms sizes.sentences len }
    ensures { Tells result ((i : ℕ) → i < len → Reasoned area.now sizes.atoms sizes.sentences i) }
{
    for i in 0..len {
        if !reason_ok(area, lim, sizes, len, i) {
            return false;
        }
    }
    true
}

// The check of word 0 and of the trail's words.
#![tactic(auto)]

ghost use Rattle.std.specs.Prelude.{ℕ, ◌*◌, ◌<◌, ◌≤◌, length};
ghost use Rattle.types.specs.Limits.{widest};
ghost use Rattle.decide.specs.Inner.Tells.{Tells};
ghost use Rattle.area.specs.Layout.{rows_from};
ghost use Rattle.area.specs.Whole.{Rising};
ghost use Rattle.trail_check.specs.Trail.{HeaderOk, TrailOk};
ghost use Rattle.trail_check.specs.Inner.Places.{TrailRoom, ValueOk, RowOk};

use types::Limits;

pub fn header_ok(area: &[u64], lim: Limits, len: u64, level: u64) -> bool
    ensures { Tells result (HeaderOk lim area.now len level) }
{
    if area.is_empty() {
        return false;
    }
    let sizes = area::sizes_of(area);
    sizes.atoms != 0
        && sizes.atoms as u64 <= lim.atoms
        && sizes.sentences as u64 <= lim.sentences
        && area.len() >= sizes.record_at(sizes.sentences)
        && area::length_of(area) as u64 == len
        && area::level_of(area) == level
        && level <= lim.levels
        && len <= sizes.atoms as u64
}

// The trail's words: those of n atoms, and of len rows, stand inside the area.
#[derive(Clone, Copy)]
pub struct Trail<'a> {
    pub area: &'a [u64],
    pub n: usize,
    pub len: usize,
    ghost room: { TrailRoom area.now n len },
}

impl Trail<'_> {
    fn value_ok(self, atom: usize) -> bool
        requires { (1 ≤ atom) × (atom ≤ self.n) }
        ensures { Tells result (ValueOk self.entry.area.now self.entry.n self.entry.len atom) }
    {
        let Trail { area, n, len } = self;
        let Some(value) = area::value_at(area, n, atom).checked_sub(1) else {
            return true;
        };
        let at = (value / 2) as usize;
        at < len && area::literal_at(area, n, at) == 2 * atom as u64 + value % 2
    }

    fn values_ok(self) -> bool
        ensures { Tells result ((a : ℕ) → 1 ≤ a → a ≤ self.entry.n → ValueOk self.entry.area.now self.entry.n self.entry.len a) }
    {
        for atom in 1..self.n + 1 {
            if !self.value_ok(atom) {
                return false;
            }
        }
        true
    }

    fn place_ok(self, i: usize) -> bool
        requires { i < self.len }
        ensures { Tells result (RowOk self.entry.area.now self.entry.n i) }
    {
        let Trail { area, n, .. } = self;
        let literal = area::literal_at(area, n, i);
        let atom = (literal / 2) as usize;
        (1..=n).contains(&atom) && area::value_at(area, n, atom) == 1 + 2 * i as u64 + literal % 2
    }

    fn places_ok(self) -> bool
        ensures { Tells result ((i : ℕ) → i < self.entry.len → RowOk self.entry.area.now self.entry.n i) }
    {
        for i in 0..self.len {
            if !self.place_ok(i) {
                return false;
            }
        }
        true
    }

    // The levels, from the last row back.
    fn levels_ok(self, level: u64) -> bool
        ensures { Tells result (Rising level (rows_from self.entry.area.now self.entry.n self.entry.len)) }
    {
        let mut high = level;
        for i in (0..self.len).rev() {
            let own = area::row_level(self.area, self.n, i);
            if own > high {
                return false;
            }
            high = own;
        }
        true
    }
}

#[tactic(auto, using(crate::proofs::Agreement::tested))]
pub fn trail_ok(area: &[u64], n: usize, len: usize, level: u64) -> bool
    requires { (1 ≤ n) × (n ≤ widest.atoms) × (4 * n ≤ length area.now) × (len ≤ n) }
    ensures { Tells result (TrailOk area.now n len level) }
{
    let trail = Trail { area, n, len };
    area::blank(area, 1, n)
        && trail.values_ok()
        && trail.places_ok()
        && trail.levels_ok(level)
        && area::blank(area, 2 * n + len, 3 * n)
        && area::blank(area, 3 * n + len, 4 * n)
}

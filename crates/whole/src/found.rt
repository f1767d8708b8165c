// A work area that was found whole, as one value.
#![tactic(auto)]

ghost use Rattle.std.specs.Prelude.{◌≡◌};
ghost use Rattle.types.specs.Limits.{Fitting};
ghost use Rattle.area.specs.Layout.{atoms_of, length_of};
ghost use Rattle.area.specs.Whole.{Whole};
ghost use Rattle.area.specs.Inner.Once.{whole_prop};
ghost use Rattle.whole.specs.Parts.{counters_with};

use trail_check::Trail;
use types::{Counters, Limits};

// The area, the limits and the counters by which it is whole. So long as this value is held, no word of the area changes.
#[derive(Clone, Copy)]
pub struct WholeArea<'a> {
    pub area: &'a [u64],
    pub lim: Limits,
    pub counters: Counters,
    ghost fitting: { Fitting lim },
    ghost whole: { Whole lim area.now (counters_with counters.length counters.level.0) } by { whole_prop lim area.now (counters_with counters.length counters.level.0) },
}

impl<'a> WholeArea<'a> {
    // Its trail.
    pub fn trail(self) -> Trail<'a>
        ensures words { result.area.now ≡ self.entry.area.now }
        ensures atoms { result.n ≡ atoms_of self.entry.area.now }
        ensures rows { result.len ≡ length_of self.entry.area.now }
    {
        Trail {
            area: self.area,
            n: area::atoms_of(self.area),
            len: area::length_of(self.area),
        }
    }
}

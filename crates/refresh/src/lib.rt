// Renewing the stored bounds after values changed.
#![tactic(auto)]

ghost use Rattle.std.specs.Prelude.{◌≡◌, length};
ghost use Rattle.types.specs.declared.Limits.{Limits};
ghost use Rattle.refresh.specs.Inner.Refresh.{Refreshable, Refreshed};
ghost use Rattle.refresh.specs.Inner.One.{TouchReady, TouchTold, OneRefreshed};

use area::Sizes;
use extremes::Evaluable;

// Whether the head or a merged entry of the sentence at `base` has a touched atom.
fn touches(sentence: Evaluable<'_>, touched: &[u8]) -> bool
    requires { length touched.now ≡ 4097 }
    ensures { TouchTold sentence.entry touched.now result }
{
    let Evaluable { area, sizes, base } = sentence;
    let head = area::head_at(area, base) as usize;
    if touched[head] != 0 {
        return true;
    }
    let start = area::entry_at(area, sizes, base);
    let merged = area::merged_at(area, base);
    for i in 0..merged {
        let atom = (area::literal_in(area, start, i) / 2) as usize;
        if touched[atom] != 0 {
            return true;
        }
    }
    false
}

// The sentence at `base`, renewed and marked as pending where a touched atom is its own.
fn refresh_one(area: &mut [u64], sizes: Sizes, base: usize, touched: &[u8])
    requires { TouchReady area.old sizes.atoms sizes.sentences base touched.now }
    ensures { OneRefreshed area.old area.new sizes.atoms sizes.sentences base touched.now }
{
    let sentence = Evaluable { area, sizes, base };
    if touches(sentence, touched) {
        let found = extremes::extremes_of(sentence);
        area::set_pending(area, base);
        area::set_bounds(area, base, found.least, found.greatest);
    }
}

// All sentences, after the values of the touched atoms changed. `touched` has a word for each atom, not 0 where its value changed.
pub fn refresh(area: &mut [u64], sizes: Sizes, touched: &[u8])
    requires { (lim : Limits) × Refreshable lim area.old sizes.atoms sizes.sentences touched.now }
    ensures { Refreshed area.old area.new sizes.atoms sizes.sentences touched.now }
{
    for s in 0..sizes.sentences {
        refresh_one(area, sizes, sizes.record_at(s), touched);
    }
}

// The check of the stored theory: places, and the words of one sentence.
#![tactic(auto)]

ghost use Rattle.std.specs.Prelude.{◌+◌, ◌*◌, ◌≤◌, length};
ghost use Rattle.types.specs.Limits.{widest, Fitting};
ghost use Rattle.decide.specs.Inner.Tells.{Tells};
ghost use Rattle.area.specs.Layout.{record_at, written_at};
ghost use Rattle.theory_check.specs.Theory.{PlacesOk, Checkable, Checked};
ghost use Rattle.theory_check.specs.Inner.Words.{RecordOk};

use area::Sizes;
use kinds::Kind;
use types::Limits;

// The largest size of a bound.
const BOUND: u64 = Limits::BOUND as u64;

// Each sentence's entries stand behind those before it, and there is room for all.
#[tactic(auto, using(crate::proofs::Places::counted))]
pub fn places_ok(area: &[u64], lim: Limits, sizes: Sizes) -> bool
    requires { Fitting lim × (sizes.atoms ≤ lim.atoms) × (sizes.sentences ≤ lim.sentences) × (record_at sizes.atoms sizes.sentences ≤ length area.now) }
    ensures { Tells result (PlacesOk lim area.now sizes.atoms sizes.sentences) }
{
    let mut before: u64 = 0;
    for s in 0..sizes.sentences {
        let base = sizes.record_at(s);
        let written = area::written_at(area, base);
        if area::before_at(area, base) != before
            || written as u64 > lim.each
            || area::merged_at(area, base) > written
        {
            return false;
        }
        before += written as u64;
    }
    before <= lim.entries && area.len() >= sizes.record_at(sizes.sentences) + 2 * before as usize
}

fn record_ok(area: &[u64], n: u64, base: usize) -> bool
    requires { (base + 8 ≤ length area.now) × (written_at area.now base ≤ widest.each) }
    ensures { Tells result (RecordOk area.now n base) }
{
    let tag = area::tag_at(area, base);
    let Ok(kind) = Kind::try_from(tag % 8) else {
        return false;
    };
    let written = area::written_at(area, base) as u64;
    (1..=n).contains(&area::head_at(area, base))
        && tag < 32
        && word_check::near(area::bound_at(area, base), BOUND)
        && word_check::constant_ok(kind, written, area::constant_at(area, base))
}

// The words of the sentence whose record starts at `base`. Stamps up to `old` are of other sentences.
pub fn sentence_ok(
    area: &[u64],
    lim: Limits,
    sizes: Sizes,
    base: usize,
    seen: &mut [u16],
    old: u16,
) -> bool
    requires { Checkable lim area.now sizes.atoms sizes.sentences base seen.old old }
    ensures { Checked lim area.now sizes.atoms sizes.sentences base seen.new old result }
{
    let at = area::entry_at(area, sizes, base);
    let merged = area::merged_at(area, base);
    let written = area::written_at(area, base);
    record_ok(area, sizes.atoms as u64, base)
        && entries_check::entries_by_kind(area, sizes.atoms as u64, base, at, seen, old)
        && area::blank(area, at + 2 * merged, at + 2 * written)
}

// The check of a stored sentence's merged entries: each is whole, no atom is met twice, and a product's weights keep to the bound.
#![tactic(auto)]

ghost use Rattle.std.specs.Prelude.{◌≡◌};
ghost use Rattle.kinds.specs.Kinds.{kind_of, meant};
ghost use Rattle.area.specs.Layout.{kind_at};
ghost use Rattle.entries_check.specs.Inner.Entries.{EntriesAsked, EntriesTold};

use kinds::Kind;

// The merged entries of the sentence at `base`, which start at `at`. An atom met in this sentence has a stamp above `old`.
fn entries_ok(
    area: &[u64],
    n: u64,
    base: usize,
    at: usize,
    kind: Kind,
    seen: &mut [u16],
    old: u16,
) -> bool
    requires { EntriesAsked area.now n base at seen.old old × (meant kind ≡ kind_of (kind_at area.now base)) }
    ensures { EntriesTold area.now n base at seen.new old result }
{
    let stamp = old + 1;
    let head = area::head_at(area, base);
    let written = area::written_at(area, base) as u64;
    let mut product = 1;
    for i in 0..area::merged_at(area, base) {
        let weight = area::weight_in(area, at, i);
        let literal = area::literal_in(area, at, i);
        if !word_check::entry_ok(n, head, kind, written, weight, literal) {
            return false;
        }
        let atom = (literal / 2) as usize;
        if seen[atom] > old {
            return false;
        }
        seen[atom] = stamp;
        let Some(next) = word_check::grown(kind, product, weight) else {
            return false;
        };
        product = next;
    }
    true
}

// The same loop for each kind, so that in the loop the kind is no question.
pub fn entries_by_kind(
    area: &[u64],
    n: u64,
    base: usize,
    at: usize,
    seen: &mut [u16],
    old: u16,
) -> bool
    requires { EntriesAsked area.now n base at seen.old old }
    ensures { EntriesTold area.now n base at seen.new old result }
{
    match area::kind_at(area, base) {
        Kind::Sum => entries_ok(area, n, base, at, Kind::Sum, seen, old),
        Kind::Product => entries_ok(area, n, base, at, Kind::Product, seen, old),
        Kind::Count => entries_ok(area, n, base, at, Kind::Count, seen, old),
        Kind::Max => entries_ok(area, n, base, at, Kind::Max, seen, old),
        Kind::Min => entries_ok(area, n, base, at, Kind::Min, seen, old),
    }
}

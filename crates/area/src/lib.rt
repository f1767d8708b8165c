// The work area: its layout, and when it is whole. Each function reads or writes one thing that the layout has, and its contract is the
// layout's definition of it: who changes where a thing stands changes it here.
#![tactic(auto)]

ghost use Rattle.std.specs.Prelude.{◌≡◌, ℕ, ◌+◌, ◌-◌, ◌*◌, ◌≤◌, ◌<◌, ◌%◌, length, set};
ghost use Rattle.decide.specs.Inner.Tells.{Tells};
ghost use Rattle.area.specs.Layout.{word, atoms_of, sentences_of, length_of, level_of, value_at, literal_at, cause_at, place_at, row_at, record_at, head_at, tag_at, pending_at, kind_of, kind_at, upper_at, bound_at, constant_at, least_at, greatest_at, before_at, written_at, merged_at, entry_at, weight_at, entry_literal_at, weight_in, literal_in};
ghost use Rattle.kinds.specs.Kinds.{meant};

use kinds::Kind;

// How many atoms and sentences an area has, which word 0 has room for. Where the parts of the area stand follows from them.
#[derive(Clone, Copy, Debug, PartialEq, Eq)]
pub struct Sizes {
    pub atoms: usize,
    pub sentences: usize,
    ghost room: { (atoms < 65536) × (sentences < 65536) },
}

impl Sizes {
    // Where the record of sentence s, from 0, starts, and behind the last one where the entries do.
    pub fn record_at(self, s: usize) -> usize
        requires { s ≤ self.sentences }
        ensures { result ≡ record_at self.atoms s }
    {
        4 * self.atoms + 8 * s
    }
}

// Whether the words from one on, up to another, are unused.
pub fn blank(area: &[u64], from: usize, to: usize) -> bool
    requires { to ≤ length area.now }
    ensures { Tells result ((i : ℕ) → from ≤ i → i < to → word area.now i ≡ 0) }
{
    // Stays: tried, too slow (a chain of `all` took 0.65 ns a word and 13 ns for 16 words, this loop 0.48 and 9).
    for i in from..to {
        if area[i] != 0 {
            return false;
        }
    }
    true
}

// ---- word 0

// N
pub fn atoms_of(area: &[u64]) -> usize
    requires { 1 ≤ length area.now }
    ensures { result ≡ atoms_of area.now }
{
    (area[0] % 65536) as usize
}

pub fn sentences_of(area: &[u64]) -> usize
    requires { 1 ≤ length area.now }
    ensures { result ≡ sentences_of area.now }
{
    (area[0] / 65536 % 65536) as usize
}

pub fn sizes_of(area: &[u64]) -> Sizes
    requires { 1 ≤ length area.now }
    ensures atoms { result.atoms ≡ atoms_of area.now }
    ensures sentences { result.sentences ≡ sentences_of area.now }
{
    Sizes {
        atoms: atoms_of(area),
        sentences: sentences_of(area),
    }
}

// the rows on the trail
pub fn length_of(area: &[u64]) -> usize
    requires { 1 ≤ length area.now }
    ensures { result ≡ length_of area.now }
{
    (area[0] / 4294967296 % 65536) as usize
}

pub fn level_of(area: &[u64]) -> u64
    requires { 1 ≤ length area.now }
    ensures { result ≡ level_of area.now }
{
    area[0] / 281474976710656
}

// ---- the trail of an area of n atoms

// of an atom: 0 open, else where it stands on the trail and its sign
pub fn value_at(area: &[u64], n: usize, atom: usize) -> u64
    requires { (1 ≤ n) × (n - 1 + atom < length area.now) }
    ensures { result ≡ value_at area.now n atom }
{
    area[n - 1 + atom]
}

pub fn literal_at(area: &[u64], n: usize, row: usize) -> u64
    requires { 2 * n + row < length area.now }
    ensures { result ≡ literal_at area.now n row }
{
    area[2 * n + row]
}

// level, reason and place of a row in one word
pub fn mark_at(area: &[u64], n: usize, row: usize) -> u64
    requires { 3 * n + row < length area.now }
    ensures { result ≡ cause_at area.now n row }
{
    area[3 * n + row]
}

pub fn row_level(area: &[u64], n: usize, row: usize) -> u64
    requires { 3 * n + row < length area.now }
    ensures { result ≡ (row_at area.now n row).level }
{
    area[3 * n + row] % 65536
}

pub fn row_reason(area: &[u64], n: usize, row: usize) -> usize
    requires { 3 * n + row < length area.now }
    ensures { result ≡ (row_at area.now n row).reason }
{
    (area[3 * n + row] / 65536 % 65536) as usize
}

pub fn place_at(area: &[u64], n: usize, row: usize) -> usize
    requires { 3 * n + row < length area.now }
    ensures { result ≡ place_at area.now n row }
{
    (area[3 * n + row] / 4294967296) as usize
}

// ---- the record of a sentence, which starts at `base`

pub fn head_at(area: &[u64], base: usize) -> u64
    requires { base + 8 ≤ length area.now }
    ensures { result ≡ head_at area.now base }
{
    area[base]
}

// kind, side and pending mark in one word
pub fn tag_at(area: &[u64], base: usize) -> u64
    requires { base + 8 ≤ length area.now }
    ensures { result ≡ tag_at area.now base }
{
    area[base + 1]
}

pub fn pending_at(area: &[u64], base: usize) -> bool
    requires { base + 8 ≤ length area.now }
    ensures { result ≡ pending_at area.now base }
{
    area[base + 1] >= 16
}

// the kind's number
pub fn kind_number_at(area: &[u64], base: usize) -> u64
    requires { base + 8 ≤ length area.now }
    ensures { result ≡ kind_at area.now base }
{
    area[base + 1] % 8
}

pub fn kind_at(area: &[u64], base: usize) -> Kind
    requires { base + 8 ≤ length area.now }
    ensures { meant result ≡ kind_of (kind_at area.now base) }
{
    Kind::numbered(kind_number_at(area, base))
}

// whether it says value ≤ bound
pub fn upper_at(area: &[u64], base: usize) -> bool
    requires { base + 8 ≤ length area.now }
    ensures { result ≡ upper_at area.now base }
{
    area[base + 1] / 8 % 2 == 1
}

pub fn bound_at(area: &[u64], base: usize) -> u64
    requires { base + 8 ≤ length area.now }
    ensures { result ≡ bound_at area.now base }
{
    area[base + 2]
}

pub fn constant_at(area: &[u64], base: usize) -> u64
    requires { base + 8 ≤ length area.now }
    ensures { result ≡ constant_at area.now base }
{
    area[base + 3]
}

pub fn least_at(area: &[u64], base: usize) -> u64
    requires { base + 8 ≤ length area.now }
    ensures { result ≡ least_at area.now base }
{
    area[base + 4]
}

pub fn greatest_at(area: &[u64], base: usize) -> u64
    requires { base + 8 ≤ length area.now }
    ensures { result ≡ greatest_at area.now base }
{
    area[base + 5]
}

// the entries written before those of the sentence
pub fn before_at(area: &[u64], base: usize) -> u64
    requires { base + 8 ≤ length area.now }
    ensures { result ≡ before_at area.now base }
{
    area[base + 6]
}

pub fn written_at(area: &[u64], base: usize) -> usize
    requires { base + 8 ≤ length area.now }
    ensures { result ≡ written_at area.now base }
{
    (area[base + 7] % 65536) as usize
}

pub fn merged_at(area: &[u64], base: usize) -> usize
    requires { base + 8 ≤ length area.now }
    ensures { result ≡ merged_at area.now base }
{
    (area[base + 7] / 65536) as usize
}

// where the words of its entries start, with `count` sentences in all
pub fn entry_at(area: &[u64], sizes: Sizes, base: usize) -> usize
    requires { (base + 8 ≤ length area.now) × (entry_at area.now sizes.atoms sizes.sentences base ≤ length area.now) }
    ensures { result ≡ entry_at area.now sizes.atoms sizes.sentences base }
{
    sizes.record_at(sizes.sentences) + 2 * area[base + 6] as usize
}

// of its entry j, from 0
pub fn weight_at(area: &[u64], sizes: Sizes, base: usize, j: usize) -> u64
    requires { (base + 8 ≤ length area.now) × (entry_at area.now sizes.atoms sizes.sentences base + 2 * j + 1 < length area.now) }
    ensures { result ≡ weight_at area.now sizes.atoms sizes.sentences base j }
{
    weight_in(area, entry_at(area, sizes, base), j)
}

pub fn entry_literal_at(area: &[u64], sizes: Sizes, base: usize, j: usize) -> u64
    requires { (base + 8 ≤ length area.now) × (entry_at area.now sizes.atoms sizes.sentences base + 2 * j + 1 < length area.now) }
    ensures { result ≡ entry_literal_at area.now sizes.atoms sizes.sentences base j }
{
    literal_in(area, entry_at(area, sizes, base), j)
}

// of entry j of those whose words start at `start`, for loops that find the start once
pub fn weight_in(area: &[u64], start: usize, j: usize) -> u64
    requires { start + 2 * j + 1 < length area.now }
    ensures { result ≡ weight_in area.now start j }
{
    area[start + 2 * j]
}

pub fn literal_in(area: &[u64], start: usize, j: usize) -> u64
    requires { start + 2 * j + 1 < length area.now }
    ensures { result ≡ literal_in area.now start j }
{
    area[start + 2 * j + 1]
}

// the stored bounds
pub fn set_bounds(area: &mut [u64], base: usize, least: u64, greatest: u64)
    requires { base + 8 ≤ length area.old }
    ensures { area.new ≡ set (set area.old (base + 4) least) (base + 5) greatest }
{
    area[base + 4] = least;
    area[base + 5] = greatest;
}

pub fn set_pending(area: &mut [u64], base: usize)
    requires { base + 8 ≤ length area.old }
    ensures { area.new ≡ set area.old (base + 1) (tag_at area.old base % 16 + 16) }
{
    area[base + 1] = area[base + 1] % 16 + 16;
}

pub fn clear_pending(area: &mut [u64], base: usize)
    requires { base + 8 ≤ length area.old }
    ensures { area.new ≡ set area.old (base + 1) (tag_at area.old base % 16) }
{
    area[base + 1] = area[base + 1] % 16;
}

// The given literals of the marked positions: counted, and written into a lent list.
#![tactic(auto)]

ghost use Rattle.std.specs.Prelude.{◌≡◌, ◌<◌, ◌≤◌, length};
ghost use Rattle.chosen.specs.Inner.Chosen.{ChosenAt, chosen_of, in_front};

use trail_check::Trail;

// The literal at position i, if the position is marked and the literal was given.
fn chosen_at(trail: Trail<'_>, i: usize, marks: &[u8]) -> Option<i64>
    requires { (i < trail.len) × (trail.len ≤ length marks.now) }
    ensures { ChosenAt trail.entry.area.now trail.entry.n marks.now i result }
{
    if marks[i] == 0 {
        return None;
    }
    if area::row_reason(trail.area, trail.n, i) == 0 {
        Some(literals::literal_of(area::literal_at(trail.area, trail.n, i)))
    } else {
        None
    }
}

// How many of the rows have one.
pub fn count_chosen(trail: Trail<'_>, marks: &[u8]) -> usize
    requires { trail.len ≤ length marks.now }
    ensures { result ≡ length (chosen_of trail.entry marks.now) }
{
    // Stays: tried, `filter(..).count()`: its contract speaks of the closure's runs, and the proof did not close.
    let mut found: usize = 0;
    for i in 0..trail.len {
        if chosen_at(trail, i, marks).is_some() {
            found += 1;
        }
    }
    found
}

// Those literals, at the front of the list; the rest of it keeps its contents.
pub fn write_chosen(trail: Trail<'_>, marks: &[u8], list: &mut [i64])
    requires { (trail.len ≤ length marks.now) × (length (chosen_of trail marks.now) ≤ length list.old) }
    ensures { list.new ≡ in_front (chosen_of trail.entry marks.now) list.old }
{
    // Stays: where the next literal goes in a lent list (no heap, so no `collect`).
    let mut at: usize = 0;
    for i in 0..trail.len {
        if let Some(literal) = chosen_at(trail, i, marks) {
            list[at] = literal;
            at += 1;
        }
    }
}

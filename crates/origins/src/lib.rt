// The origins of the literal at a position of a whole area's trail: what it rests on is marked, and the given literals among it are listed.
#![tactic(auto)]

ghost use Rattle.origins.specs.Inner.Origins.{OriginsAsked, Blank, origins_at, Choice, Handed};

use calls::Refusal;
use trail_check::Trail;

// Marks what the literal at a position rests on, in a table without marks, and counts the given literals among it.
fn choose(area: &[u64], position: usize, marks: &mut [u8]) -> usize
    requires { OriginsAsked area.now position × Blank area.now marks.old }
    ensures { Choice area.now position marks.new result }
{
    let sizes = area::sizes_of(area);
    let trail = Trail {
        area,
        n: sizes.atoms,
        len: area::length_of(area),
    };
    marks[position] = 1;
    marking::mark(area, sizes, position, marks);
    chosen::count_chosen(trail, marks)
}

// The origins of the literal at a position of a whole area's trail, or 18 with their number.
pub fn list_origins(area: &[u64], position: usize, list: &mut [i64]) -> Result<u64, Refusal>
    requires { OriginsAsked area.now position }
    ensures { Handed (origins_at area.now position) list.old list.new result }
{
    let mut marks = [0u8; 4097];
    let needed = choose(area, position, &mut marks);
    if list.len() < needed {
        return Err(Refusal::TooShort(needed as u64));
    }
    let trail = Trail {
        area,
        n: area::atoms_of(area),
        len: area::length_of(area),
    };
    chosen::write_chosen(trail, &marks, list);
    Ok(needed as u64)
}

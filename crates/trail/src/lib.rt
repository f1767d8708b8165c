// The steps on the trail's words.
#![tactic(auto)]

ghost use Rattle.std.specs.Prelude.{◌≡◌, ◌<◌, ◌≤◌, length, set};
ghost use Rattle.area.specs.Layout.{sentences_of, level_of};
ghost use Rattle.trail.specs.Inner.Step.{put_on, Puttable, Cut};
ghost use Rattle.trail.specs.Inner.Stands.{Stands};
ghost use Rattle.trail.specs.Inner.Header.{header_word};

// A literal of an open atom goes on the trail, with its level, reason and place in `mark`.
pub fn put(area: &mut [u64], n: usize, len: usize, literal: u64, mark: u64)
    requires { Stands area.old n len × Puttable area.old n literal }
    ensures { area.new ≡ put_on area.old n len literal mark }
{
    area[0] = area[0] + 4294967296;
    let a = (literal / 2) as usize;
    area[n - 1 + a] = 1 + 2 * (len as u64) + literal % 2;
    area[2 * n + len] = literal;
    area[3 * n + len] = mark;
}

// The rows above level k go off the trail, and their atoms are marked in `touched`; the rows left. Word 0 stays as it was.
pub fn cut(area: &mut [u64], n: usize, len: usize, k: u64, touched: &mut [u8]) -> usize
    requires { Stands area.old n len × (length touched.old ≡ 4097) }
    ensures { Cut area.old area.new n len (level_of area.old) k result touched.new }
{
    for last in (0..len).rev() {
        if area::row_level(area, n, last) <= k {
            return last + 1;
        }
        let a = (area::literal_at(area, n, last) / 2) as usize;
        area[n - 1 + a] = 0;
        area[2 * n + last] = 0;
        area[3 * n + last] = 0;
        touched[a] = 1;
    }
    0
}

// Word 0 gets a length and a level.
pub fn set_header(area: &mut [u64], n: usize, len: usize, level: u64)
    requires { (1 ≤ length area.old) × (n < 65536) × (len < 65536) × (level < 65536) }
    ensures { area.new ≡ set area.old 0 (header_word n (sentences_of area.old) len level) }
{
    let s = area::sentences_of(area) as u64;
    area[0] = (n as u64) + 65536 * s + 4294967296 * (len as u64) + 281474976710656 * level;
}

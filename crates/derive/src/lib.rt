// The loop of propagate: one step after the other, until no sentence has anything to say or one is in conflict.
#![tactic(auto)]

ghost use Rattle.types.specs.Sentences.{number_of, Named};
ghost use Rattle.find.specs.Inner.Find.{Searchable};
ghost use Rattle.derive.specs.Inner.Settle.{Settleable, Settled};
ghost use Rattle.derive.specs.Inner.Stopped.{Stopped};

use area::Sizes;
use find::Found;
use types::{Limits, Sentence};

// Where the loop stops: the sentence in conflict, and the trail's length.
#[derive(Clone, Copy, Debug, PartialEq, Eq)]
pub struct End {
    pub sentence: Option<Sentence>,
    pub length: usize,
}

// No sentence is pending any more.
fn settle(area: &mut [u64], sizes: Sizes)
    requires { Settleable area.old sizes.atoms sizes.sentences }
    ensures { Settled area.old area.new sizes.atoms sizes.sentences }
{
    for s in 0..sizes.sentences {
        area::clear_pending(area, sizes.record_at(s));
    }
}

// On a whole area: what the lowest-numbered sentence that speaks forces is put on, with its level, reason and place, again and again.
pub fn run(area: &mut [u64], sizes: Sizes, len: usize, level: u64) -> End
    requires { (lim : Limits) × Searchable lim area.old sizes.atoms sizes.sentences len level }
    ensures stopped { (lim : Limits) → Searchable lim area.old sizes.atoms sizes.sentences len level → Stopped lim area.old area.new level result.length (number_of result.sentence) }
    ensures named { Named result.sentence }
{
    let mut length = len;
    // Stays: a `loop`, left by what is found: how many turns there are is known to the proof alone.
    loop {
        match find::find(area, sizes) {
            Found::Nothing => {
                settle(area, sizes);
                return End {
                    sentence: None,
                    length,
                };
            }
            Found::Conflict(s) => {
                return End {
                    sentence: Some(Sentence(s as u64 + 1)),
                    length,
                };
            }
            Found::Forced(s, literal, place) => {
                let mark = level + 65536 * (s as u64 + 1) + 4294967296 * place as u64;
                give::advance(area, sizes, length, literal, mark);
                length += 1;
            }
        }
    }
}

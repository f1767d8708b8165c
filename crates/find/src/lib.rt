// The lowest-numbered sentence that has something to say, and what.
#![tactic(auto)]

ghost use Rattle.std.specs.Prelude.{◌<◌};
ghost use Rattle.find.specs.Inner.Find.{FoundIs};
ghost use Rattle.find.specs.Inner.Asked.{FindReady, KnownAt};

use area::Sizes;
use evaluate::Known;
use extremes::{Evaluable, Extremes};

// Nothing; the sentence in conflict, counted from 0; or the sentence that forces, the literal's word, and where the sentence has its atom:
// 0 for the head, j for merged entry j from 1.
#[derive(Clone, Copy, Debug, PartialEq, Eq)]
pub enum Found {
    Nothing,
    Conflict(usize),
    Forced(usize, u64, usize),
}

// What is known of sentence s before its entries are scanned: nothing is to be said where it is not marked as pending.
fn known_of(area: &[u64], sizes: Sizes, s: usize) -> Known
    requires find_ready { FindReady area.now sizes.atoms sizes.sentences }
    requires s_lt_sentences { s < sizes.sentences }
    ensures { KnownAt area.now sizes.atoms sizes.sentences s result }
{
    let base = sizes.record_at(s);
    if !area::pending_at(area, base) {
        return Known::Silent;
    }
    let stored = Extremes {
        least: area::least_at(area, base),
        greatest: area::greatest_at(area, base),
    };
    evaluate::look(Evaluable { area, sizes, base }, stored)
}

// The scan over the sentences and the entries, left at the first that speaks.
pub fn find(area: &[u64], sizes: Sizes) -> Found
    requires { FindReady area.now sizes.atoms sizes.sentences }
    ensures { FoundIs area.now sizes.atoms sizes.sentences result }
{
    let mut found = Found::Nothing;
    'sentences: for s in 0..sizes.sentences {
        match known_of(area, sizes, s) {
            Known::Silent => {}
            Known::Conflict => {
                found = Found::Conflict(s);
                break 'sentences;
            }
            Known::Forced(l) => {
                found = Found::Forced(s, l, 0);
                break 'sentences;
            }
            Known::Undecided(body) => {
                for i in 0..body.merged {
                    let e = extremes::entry_in(area, body.start, sizes.atoms, i);
                    if evaluate::entry_turns(body, e.weight, e.value) {
                        let forced = evaluate::entry_wanted(body, e.weight, e.literal);
                        found = Found::Forced(s, forced, i + 1);
                        break 'sentences;
                    }
                }
            }
        }
    }
    found
}

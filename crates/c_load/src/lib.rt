// The words that an area needs, and load, for C, under given limits.
#![tactic(auto)]

ghost use Rattle.std.specs.Prelude.{◌≡◌, ◌<◌};
ghost use Rattle.types.specs.Limits.{Fitting};
ghost use Rattle.columns.specs.Columns.{held};
ghost use Rattle.columns.specs.Answers.{refusal_answer};
ghost use Rattle.c_interface.specs.Interface.{packed, need_for, LoadsFor};

use columns::{Columns, Refusal};
use types::{Atom, Limits};

// The words that an area needs, 0 where a count is above its limit or there is no atom.
pub fn need(lim: Limits, atoms: u64, sentences: u64, entries: u64) -> u64
    requires { Fitting lim }
    ensures { result ≡ need_for lim atoms sentences entries }
{
    if atoms == 0 || atoms > lim.atoms || sentences > lim.sentences || entries > lim.entries {
        return 0;
    }
    4 * atoms + 8 * sentences + 2 * entries
}

// A refusal of load: the sentence that it is about is the value.
fn refused(refusal: Refusal) -> u64
    requires { (refusal_answer refusal).sentence.0 < 4294967296 }
    ensures { result ≡ packed (refusal_answer refusal).code (refusal_answer refusal).sentence.0 }
{
    let answer = refusal.answer();
    c_interface::answer(answer.code, answer.sentence.0)
}

// Load: the columns are checked and stored in the area; the counters are 0 and 0. Where the lent words are too few, what it refuses comes first.
#[tactic(auto, using(crate::proofs::Loading::refused_small))]
pub fn load(
    area: &mut [u64],
    lim: Limits,
    atoms: Atom,
    columns: Columns<'_>,
    next: &mut [u64],
) -> u64
    requires { Fitting lim }
    ensures { LoadsFor lim area.old area.new atoms.0 (held columns.entry) next.old next.new result }
{
    if next.len() < 2 {
        return match load_check::check(area.len(), lim, atoms, columns) {
            Ok(()) => c_interface::answer(18, 2),
            Err(refusal) => refused(refusal),
        };
    }
    match load::load_within(area, lim, atoms, columns) {
        Ok(counters) => {
            c_interface::put_front(next, [counters.length, counters.level.0]);
            0
        }
        Err(refusal) => refused(refusal),
    }
}

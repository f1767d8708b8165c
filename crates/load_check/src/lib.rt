// Load's refusals: the lent columns are checked before a word is written, by document 01's table: the columns' shape (1), the area's length
// (2), then each sentence (3 to 8).
#![tactic(auto)]

ghost use Rattle.std.specs.Prelude.{◌≡◌};
ghost use Rattle.types.specs.Limits.{Fitting};
ghost use Rattle.columns.specs.Columns.{held, all_written};
ghost use Rattle.columns.specs.Answers.{answer_of};
ghost use Rattle.columns.specs.Refusals.{all_refusals, first_refusal, load_answer};
ghost use Rattle.columns.specs.Decides.{Shaped};

use columns::{Columns, Refusal, SentenceColumns};
use types::{Atom, Limits, Sentence};

fn check_sentences(lim: Limits, n: u64, columns: Columns<'_>) -> Result<(), Refusal>
    requires { Fitting lim × Shaped lim n (held columns) }
    ensures { answer_of result ≡ first_refusal (all_refusals lim n 1 (all_written (held columns.entry))) }
{
    let mut from = 0;
    for s in 0..columns.heads.len() {
        let to = from + columns.counts[s] as usize;
        let sentence = SentenceColumns {
            head: columns.heads[s],
            kind: columns.kinds[s],
            side: columns.sides[s],
            bound: columns.bounds[s],
            weights: &columns.weights[from..to],
            literals: &columns.literals[from..to],
        };
        if let Err(fault) = sentence_check::check_sentence(lim, n, sentence) {
            return Err(Refusal::Faulty(Sentence(s as u64 + 1), fault));
        }
        from = to;
    }
    Ok(())
}

// The first refusal of load that applies, before a word is written.
pub fn check(words: usize, lim: Limits, atoms: Atom, columns: Columns<'_>) -> Result<(), Refusal>
    requires { Fitting lim }
    ensures { answer_of result ≡ load_answer lim words atoms.0 (held columns.entry) }
{
    let sentences = columns.heads.len();
    let entries = columns.weights.len();
    if shape_check::past_limits(lim, atoms.0, sentences as u64, entries as u64)
        || shape_check::unequal(columns)
        || !shape_check::adds_up(columns.counts, entries as u64)
    {
        return Err(Refusal::Misshapen);
    }
    if words < 4 * atoms.0 as usize + 8 * sentences + 2 * entries {
        return Err(Refusal::TooShort);
    }
    check_sentences(lim, atoms.0, columns)
}

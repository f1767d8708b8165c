// The refusals of one written sentence (3 to 8), in the table's order. Each test looks at an entry once.
#![tactic(auto)]

ghost use Rattle.std.specs.Prelude.{◌≡◌, ◌≤◌};
ghost use Rattle.types.specs.Limits.{widest};
ghost use Rattle.columns.specs.Answers.{fault_in};
ghost use Rattle.columns.specs.Indexed.{lent_code};

use columns::{Fault, SentenceColumns};
use kinds::Kind;
use types::Limits;

pub fn check_sentence(lim: Limits, n: u64, sentence: SentenceColumns<'_>) -> Result<(), Fault>
    requires { n ≤ widest.atoms }
    ensures { fault_in result ≡ lent_code lim n sentence.entry }
{
    let SentenceColumns {
        head,
        kind,
        side,
        bound,
        weights,
        literals,
    } = sentence;
    let Ok(known) = Kind::try_from(kind) else {
        return Err(Fault::Unknown);
    };
    if side > 1 || literals.len() as u64 > lim.each {
        return Err(Fault::Unknown);
    }
    if literal_check::strange(n, head, literals) {
        return Err(Fault::Strange);
    }
    if weight_check::out_of_range(known, bound, weights) {
        return Err(Fault::OutOfRange);
    }
    if literal_check::own_head(head, literals) {
        return Err(Fault::OwnHead);
    }
    if literal_check::mixed(known, literals) {
        return Err(Fault::BothSigns);
    }
    if known == Kind::Product && weight_check::too_great(weights) {
        return Err(Fault::TooGreat);
    }
    Ok(())
}

// A literal put on: given by a caller, or with a reason.
#![tactic(auto)]

ghost use Rattle.std.specs.Prelude.{◌≡◌, IfOk, ℕ, ◌<◌, ◌≤◌, length};
ghost use Rattle.types.specs.Limits.{widest, Fitting};
ghost use Rattle.numbers.specs.Words.{literal_word};
ghost use Rattle.meaning.specs.Meaning.{atom};
ghost use Rattle.book.specs.Table.{give};
ghost use Rattle.book.specs.Book as book;
ghost use Rattle.area.specs.Layout.{word};
ghost use Rattle.calls.specs.Refusals.{code_in};
ghost use Rattle.calls.specs.Calls.{counted, counters_after, done_returned, Acts};
ghost use Rattle.give.specs.Inner.Trail.{Advanceable, Advanced};
ghost use Rattle.whole.specs.Inner.Usable.{Usable};
ghost use Rattle.give.specs.Inner.Ready.{AdvanceReady, Ready};
ghost use Rattle.give.specs.Inner.Refused.{refusal_code};

use area::Sizes;
use calls::Refusal;
use types::{Counters, Limits};

// A table with a mark at one atom.
fn only(atom: usize) -> [u8; 4097]
    requires { atom < 4097 }
    ensures { (length result ≡ 4097) × (word result atom ≡ 1) }
{
    let mut touched = [0u8; 4097];
    touched[atom] = 1;
    touched
}

// A literal of an open atom goes on the trail of a whole area, with its level, reason and place in `mark`; the bounds of the sentences
// that have the atom are renewed.
pub fn advance(area: &mut [u64], sizes: Sizes, len: usize, literal: u64, mark: u64)
    requires { AdvanceReady area.old sizes.atoms sizes.sentences len literal mark }
    ensures { (lim : Limits) (level : ℕ) → Advanceable lim area.old sizes.atoms sizes.sentences len level literal mark → Advanced lim area.old area.new len level literal mark }
{
    trail::put(area, sizes.atoms, len, literal, mark);
    let touched = only((literal / 2) as usize);
    refresh::refresh(area, sizes, &touched);
}

// ---- give

// The word of a literal of that size.
fn word_of(literal: i64, size: usize) -> u64
    requires { (size ≡ atom literal) × (size ≤ widest.atoms) }
    ensures { result ≡ literal_word literal }
{
    let word = 2 * size as u64;
    if literal.is_negative() {
        word + 1
    } else {
        word
    }
}

// The atom of a literal that can be given on a whole area, or the refusal.
pub fn open_atom(area: &[u64], literal: i64) -> Result<usize, Refusal>
    requires { (lim : Limits) × (c : book.Counters) × Usable lim area.now c }
    ensures refusal { (lim : Limits) (c : book.Counters) → Usable lim area.now c → code_in result ≡ refusal_code lim area.now (give literal) }
    ensures is_atom { IfOk result (λ a. a ≡ atom literal) }
{
    let n = area::atoms_of(area);
    let atom = literals::atom_of(literal, n).ok_or(Refusal::NoAtom)?;
    if area::value_at(area, n, atom) != 0 {
        return Err(Refusal::OnTrail);
    }
    Ok(atom)
}

// The caller's literal on a whole area, put on at the current level with no reason.
pub fn give_whole(area: &mut [u64], counters: Counters, literal: i64) -> Result<Counters, Refusal>
    requires { Ready area.old (counted counters) }
    ensures { (lim : Limits) → Usable lim area.old (counted counters) → Acts lim area.old area.new (counted counters) (counted (counters_after counters result)) (give literal) (done_returned result) }
{
    let atom = open_atom(area, literal)?;
    let sizes = area::sizes_of(area);
    let word = word_of(literal, atom);
    advance(
        area,
        sizes,
        counters.length as usize,
        word,
        counters.level.0,
    );
    Ok(Counters {
        length: counters.length + 1,
        ..counters
    })
}

pub fn give_within(
    area: &mut [u64],
    lim: Limits,
    counters: Counters,
    literal: i64,
) -> Result<Counters, Refusal>
    requires { Fitting lim }
    ensures { Acts lim area.old area.new (counted counters) (counted (counters_after counters result)) (give literal) (done_returned result) }
{
    if !whole::is_whole(area, lim, counters) {
        return Err(Refusal::NotWhole);
    }
    give_whole(area, counters, literal)
}

// OPB text into load's columns, as document 01 lays it down: the automaton of `opb_bytes` first decides the whole text, and then fills.
#![tactic(auto)]

ghost use Rattle.std.specs.Prelude.{◌≡◌};
ghost use Rattle.opb_rows.specs.Columns.{held_of, SameColumns};
ghost use Rattle.opb_text.specs.Text.{reading, read_of, result_of, refusal_number, refusal_value, Reads};
ghost use Rattle.opb_text.specs.Inner.States.{answer_at, Decided};

use opb_grammar::{Fault, Next, State};
use opb_rows::ColumnsMut;

// The sizes of what stands in the columns.
#[derive(Clone, Copy, Debug, PartialEq, Eq)]
pub struct Read {
    pub variables: u64,
    pub constraints: u64,
    pub sentences: u64,
    pub entries: u64,
}

// Why nothing was read.
#[derive(Clone, Copy, Debug, PartialEq, Eq)]
pub enum Refusal {
    // the text has a fault, before which so many constraints are complete
    Text { fault: Fault, complete: u64 },
    // a column is too short for so many sentences or entries
    Columns { needed: u64 },
}

impl Refusal {
    // Document 01's number.
    pub fn number(self) -> u64
        ensures { result ≡ refusal_number self }
    {
        match self {
            Refusal::Text { fault, .. } => fault.number(),
            Refusal::Columns { .. } => 18,
        }
    }

    // The number that comes with it.
    pub fn value(self) -> u64
        ensures { result ≡ refusal_value self }
    {
        match self {
            Refusal::Text { complete, .. } => complete,
            Refusal::Columns { needed } => needed,
        }
    }
}

// ---- first pass: the whole text is decided

// The answer at the end of the text, with `complete` constraints, and room for so many sentences and entries.
#[tactic(auto, unfolding(crate::specs::Inner::States::answer_at))]
fn answer(s: State, complete: u64, sentences: u64, entries: u64) -> Result<Read, Refusal>
    ensures { result ≡ answer_at sentences entries s complete }
{
    opb_bytes::check_end(s).map_err(|fault| Refusal::Text { fault, complete })?;
    if complete != s.sizes.constraints {
        return Err(Refusal::Text {
            fault: Fault::Count,
            complete,
        });
    }
    if sentences < s.counts.sentences {
        return Err(Refusal::Columns {
            needed: s.counts.sentences,
        });
    }
    if entries < s.counts.entries {
        return Err(Refusal::Columns {
            needed: s.counts.entries,
        });
    }
    Ok(Read {
        variables: s.sizes.variables,
        constraints: complete,
        sentences: s.counts.sentences,
        entries: s.counts.entries,
    })
}

// The answer of the reader, before a word is written.
fn decide(text: &[u8], sentences: u64, entries: u64) -> Result<Read, Refusal>
    ensures { result ≡ read_of sentences entries (reading text.now) }
{
    if text.len() > 65536 {
        return Err(Refusal::Text {
            fault: Fault::TooLong,
            complete: 0,
        });
    }
    let mut s = opb_bytes::start();
    let mut complete = 0;
    for &b in text {
        let next = opb_bytes::step(s, b).map_err(|fault| Refusal::Text { fault, complete })?;
        match next {
            // Stays: two arms. One pattern for both was tried, too slow: it copies the state once more (14 instructions for each byte).
            Next::More(t) => s = t,
            Next::Term(t) => s = t,
            Next::Constraint(t) => {
                complete += 1;
                s = t;
            }
        }
    }
    answer(s, complete, sentences, entries)
}

// ---- second pass: the columns are filled

// The columns of a text that is taken: constraint j has head V + j.
fn fill(text: &[u8], read: Read, columns: &mut ColumnsMut<'_>)
    requires { Decided text.now (held_of columns.old) read }
    ensures same { SameColumns columns.old columns.new }
    ensures holds { held_of columns.new ≡ result_of (reading text.now) (held_of columns.old) }
{
    let mut s = opb_bytes::start();
    let mut head = read.variables + 1;
    for &b in text {
        let Ok(next) = opb_bytes::step(s, b) else {
            return;
        };
        match next {
            Next::More(t) => s = t,
            Next::Term(t) => {
                columns.put_term(s);
                s = t;
            }
            Next::Constraint(t) => {
                columns.put_rows(s, head);
                head += 1;
                s = t;
            }
        }
    }
}

// ---- the reader

// A text into the columns that load takes: decided as a whole first, refused by document 01's numbers, and then stored. Words past the
// result keep their contents, and a refusal leaves all as they were.
#[tactic(auto, using(crate::proofs::Replies::refused_reply, crate::proofs::Replies::taken_reply))]
pub fn read_text(text: &[u8], columns: &mut ColumnsMut<'_>) -> Result<Read, Refusal>
    ensures same { SameColumns columns.old columns.new }
    ensures reads { Reads text.now (held_of columns.old) (held_of columns.new) result }
{
    let sentences = columns
        .heads
        .len()
        .min(columns.kinds.len())
        .min(columns.sides.len())
        .min(columns.bounds.len())
        .min(columns.counts.len());
    let entries = columns.weights.len().min(columns.literals.len());
    let read = decide(text, sentences as u64, entries as u64)?;
    fill(text, read, columns);
    Ok(read)
}

// What load is handed and why it refuses. The columns are plain lists, lent; `specs/` says what sentences they hold and which refusal applies,
// and `load_check` decides it.
#![tactic(auto)]

ghost use Rattle.std.specs.Prelude.{◌≡◌};
ghost use Rattle.columns.specs.Answers.{refusal_answer};

use types::Sentence;

// One number a sentence in the first five columns, one an entry in the last two.
#[derive(Clone, Copy)]
pub struct Columns<'a> {
    pub heads: &'a [u64],
    pub kinds: &'a [u64],
    pub sides: &'a [u64],
    pub bounds: &'a [i64],
    pub counts: &'a [u64],
    pub weights: &'a [i64],
    pub literals: &'a [i64],
}

// A sentence as written: its numbers, and the parts of the two entry columns that are its own.
#[derive(Clone, Copy)]
// Stays: a kind and a side by number, as load's columns have them; the check makes the kind of the number.
pub struct SentenceColumns<'a> {
    pub head: u64,
    pub kind: u64,
    pub side: u64,
    pub bound: i64,
    pub weights: &'a [i64],
    pub literals: &'a [i64],
}

// What a sentence is refused for.
#[derive(Clone, Copy, Debug, PartialEq, Eq)]
pub enum Fault {
    // its kind or side is none, or it has too many entries
    Unknown,
    // its head or a literal is of no atom
    Strange,
    // a weight or its bound is outside its range
    OutOfRange,
    // its head's atom is in its own set
    OwnHead,
    // both signs of an atom are, in a product, max or min
    BothSigns,
    // the product of its weights is
    TooGreat,
}

// Why load refuses.
#[derive(Clone, Copy, Debug, PartialEq, Eq)]
pub enum Refusal {
    // a count above its limit, or columns that do not go together
    Misshapen,
    // the area is too short
    TooShort,
    Faulty(Sentence, Fault),
}

// Document 01's number of a refusal, with the sentence that it is about, 0 for none.
#[derive(Clone, Copy, Debug, PartialEq, Eq)]
pub struct Answer {
    // Stays: document 01's numbers, which C and the console are told, with 0 for no sentence.
    pub code: u64,
    pub sentence: Sentence,
}

impl Refusal {
    pub fn answer(self) -> Answer
        ensures { result ≡ refusal_answer self }
    {
        match self {
            Refusal::Misshapen => Answer {
                code: 1,
                sentence: Sentence(0),
            },
            Refusal::TooShort => Answer {
                code: 2,
                sentence: Sentence(0),
            },
            Refusal::Faulty(sentence, fault) => Answer {
                code: match fault {
                    Fault::Unknown => 3,
                    Fault::Strange => 4,
                    Fault::OutOfRange => 5,
                    Fault::OwnHead => 6,
                    Fault::BothSigns => 7,
                    Fault::TooGreat => 8,
                },
                sentence,
            },
        }
    }
}

// The answers of the calls, as the code hands them back.
#![tactic(auto)]

ghost use Rattle.std.specs.Prelude.{◌≡◌};
ghost use Rattle.calls.specs.Refusals.{code_of, value_of};

// Why a call after load is refused.
#[derive(Clone, Copy, Debug, PartialEq, Eq)]
pub enum Refusal {
    // the area is not whole
    NotWhole,
    // a literal 0, or of no atom
    NoAtom,
    // the atom is on the trail, either sign
    OnTrail,
    // the literal is not on the trail
    NotOnTrail,
    // the literal was given, and not derived
    Given,
    // the level is the highest
    HighestLevel,
    // a level above the current
    LevelAbove,
    NoSentence,
    // the sentence is not in conflict
    NoConflict,
    // the lent list is shorter than the result, whose length it is
    TooShort(u64),
}

impl Refusal {
    // Document 01's number.
    pub fn code(self) -> u64
        ensures { result ≡ code_of self }
    {
        match self {
            Refusal::NotWhole => 9,
            Refusal::NoAtom => 10,
            Refusal::OnTrail => 11,
            Refusal::NotOnTrail => 12,
            Refusal::Given => 13,
            Refusal::HighestLevel => 14,
            Refusal::LevelAbove => 15,
            Refusal::NoSentence => 16,
            Refusal::NoConflict => 17,
            Refusal::TooShort(_) => 18,
        }
    }

    // What comes with it: the needed length, and 0 with any other.
    pub fn value(self) -> u64
        ensures { result ≡ value_of self }
    {
        match self {
            Refusal::TooShort(needed) => needed,
            _ => 0,
        }
    }
}

// A bound that a report gives.
#[derive(Clone, Copy, Debug, PartialEq, Eq)]
pub enum Bound {
    BelowAll,
    Number(i64),
    AboveAll,
}

// The least and the greatest value of a sentence.
#[derive(Clone, Copy, Debug, PartialEq, Eq)]
pub struct Bounds {
    pub least: Bound,
    pub greatest: Bound,
}

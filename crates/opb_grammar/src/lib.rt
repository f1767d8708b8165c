// What has been read of an OPB text: the state between two bytes, its changes, and the checks of a number that has ended.
#![tactic(auto)]

ghost use Rattle.std.specs.Prelude.{◌≡◌, ◌+◌, leb};
ghost use Rattle.std.specs.Result.{result_err};
ghost use Rattle.opb_grammar.specs.Grammar as grammar;

use types::Limits;

// What has been read, and so what may come next.
#[derive(Clone, Copy, Debug, PartialEq, Eq)]
pub enum Phase {
    // the first line: `* #variable= `, V, ` #constraint= `, C, and its end
    Opening,
    BeforeV,
    InV,
    Middle,
    BeforeC,
    InC,
    AfterReturn,
    // outside constraints
    LineStart,
    Between,
    Comment,
    // a term
    WeightSign,
    InWeight,
    BeforeX,
    BeforeVariable,
    InVariable,
    AfterTerm,
    // the relation and the right side
    AfterGreater,
    AfterRelation,
    BeforeBound,
    BoundSign,
    InBound,
    AfterBound,
}

// A number as far as it has been read: its size, told up to 10^18, its digits, told up to 19, and whether a minus stands before it.
#[derive(Clone, Copy, Debug, PartialEq, Eq)]
pub struct Number {
    pub size: u64,
    pub digits: u64,
    pub minus: bool,
}

// V and C.
#[derive(Clone, Copy, Debug, PartialEq, Eq)]
pub struct Sizes {
    pub variables: u64,
    pub constraints: u64,
}

// The terms of the constraint that is being read, and the entries and sentences so far, those of `=` twice.
#[derive(Clone, Copy, Debug, PartialEq, Eq)]
pub struct Counts {
    pub terms: u64,
    pub entries: u64,
    pub sentences: u64,
}

#[derive(Clone, Copy)]
pub struct State {
    pub phase: Phase,
    // bytes of the first line's fixed text that have been read
    pub matched: u64,
    pub number: Number,
    // the weight of the term that is being read
    pub weight: Number,
    // whether the relation is `=`
    pub equal: bool,
    pub sizes: Sizes,
    pub counts: Counts,
}

// What a text that is refused is refused for.
#[derive(Clone, Copy, Debug, PartialEq, Eq)]
pub enum Fault {
    // not this form
    Form,
    // V 0, V + C above 1,024, a variable above V, or not C constraints
    Count,
    // an integer of 19 digits or more
    Digits,
    // more than 65,536 bytes
    TooLong,
    // more than 256 sentences or 4,096 entries
    TooMany,
}

impl Fault {
    // Document 01's number.
    pub fn number(self) -> u64
        ensures { result ≡ grammar.fault_number self }
    {
        match self {
            Fault::Form => 20,
            Fault::Count => 21,
            Fault::Digits => 22,
            Fault::TooLong => 23,
            Fault::TooMany => 24,
        }
    }
}

// What a byte that is not refused makes of a state: the text goes on, where a term or a whole constraint may just have been passed.
#[derive(Clone, Copy)]
pub enum Next {
    More(State),
    Term(State),
    Constraint(State),
}

// ---- numbers

// What a number of more than 18 digits is told as.
const GREATEST: u64 = 1_000_000_000_000_000_000;

// a + b is at most the limit, told with no sum that could wrap.
pub fn within(a: u64, b: u64, limit: u64) -> bool
    ensures { result ≡ leb (a + b) limit }
{
    // Stays: no plainer by `checked_add`, and met with every digit.
    a <= limit && b <= limit - a
}

impl Number {
    // A number of which no digit has been read.
    pub fn sign(minus: bool) -> Number
        ensures { result ≡ grammar.signed minus }
    {
        Number {
            size: 0,
            digits: 0,
            minus,
        }
    }

    // One digit more; a byte below `0` stands for 0.
    #[tactic(auto, unfolding(crate::specs::Grammar::more))]
    pub fn more(self, b: u8) -> Number
        ensures { result ≡ grammar.more self b }
    {
        let digit = u64::from(b.saturating_sub(b'0'));
        Number {
            size: (self.size.min(GREATEST) * 10 + digit).min(GREATEST),
            digits: self.digits.min(18) + 1,
            ..self
        }
    }
}

// ---- states

impl State {
    pub fn at(self, phase: Phase) -> State
        ensures { result ≡ grammar.at self phase }
    {
        State { phase, ..self }
    }

    pub fn matching(self, phase: Phase, matched: u64) -> State
        ensures { result ≡ grammar.matching self phase matched }
    {
        State {
            phase,
            matched,
            ..self
        }
    }

    pub fn numbering(self, phase: Phase, number: Number) -> State
        ensures { result ≡ grammar.numbering self phase number }
    {
        State {
            phase,
            number,
            ..self
        }
    }

    // The number in hand is the weight.
    pub fn weighing(self, phase: Phase) -> State
        ensures { result ≡ grammar.weighing self phase }
    {
        State {
            phase,
            weight: self.number,
            ..self
        }
    }

    pub fn sizing(self, phase: Phase, sizes: Sizes) -> State
        ensures { result ≡ grammar.sizing self phase sizes }
    {
        State {
            phase,
            matched: 0,
            sizes,
            ..self
        }
    }

    pub fn counting(self, phase: Phase, equal: bool, counts: Counts) -> State
        ensures { result ≡ grammar.counting self phase equal counts }
    {
        State {
            phase,
            equal,
            counts,
            ..self
        }
    }
}

// ---- checks of a number that has ended

impl State {
    #[tactic(auto, unfolding(crate::specs::Grammar::long_fault))]
    pub fn check_digits(self) -> Result<(), Fault>
        ensures { result_err result ≡ grammar.long_fault self }
    {
        if self.number.digits < 19 {
            return Ok(());
        }
        Err(Fault::Digits)
    }

    #[tactic(auto, unfolding(crate::specs::Grammar::v_fault))]
    pub fn check_v(self) -> Result<(), Fault>
        ensures { result_err result ≡ grammar.v_fault self }
    {
        if self.number.size == 0 {
            return Err(Fault::Count);
        }
        self.check_digits()
    }

    #[tactic(auto, unfolding(crate::specs::Grammar::c_fault))]
    pub fn check_c(self) -> Result<(), Fault>
        ensures { result_err result ≡ grammar.c_fault self }
    {
        if within(self.sizes.variables, self.number.size, Limits::ATOMS) {
            return self.check_digits();
        }
        Err(Fault::Count)
    }

    #[tactic(auto, unfolding(crate::specs::Grammar::variable_fault))]
    pub fn check_variable(self) -> Result<(), Fault>
        ensures { result_err result ≡ grammar.variable_fault self }
    {
        if self.sizes.variables < self.number.size {
            return Err(Fault::Count);
        }
        if self.counts.entries < Limits::ENTRIES {
            return Ok(());
        }
        Err(Fault::TooMany)
    }
}

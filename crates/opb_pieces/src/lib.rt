// The pieces of an OPB text's grammar: fixed texts, numbers, terms, relations, and what ends a constraint.
#![tactic(auto)]

ghost use Rattle.std.specs.Prelude.{◌≡◌, ◌<◌, ◌≤◌, length};
ghost use Rattle.opb_grammar.specs.Grammar as grammar;

use opb_classes::Class;
use opb_grammar::{Counts, Fault, Next, Number, Phase, State};
use types::Limits;

// ---- pieces of the text

// The next byte of a fixed text, in phase p; a number follows in phase q.
#[tactic(auto, unfolding(opb_grammar::specs::Grammar::expect))]
fn expect(text: &[u8], p: Phase, q: Phase, s: State, b: u8) -> Result<Next, Fault>
    requires { s.matched < length text.now }
    ensures { result ≡ grammar.expect text.now p q s b }
{
    let i = s.matched as usize;
    if text[i] != b {
        return Err(Fault::Form);
    }
    if i + 1 == text.len() {
        return Ok(Next::More(s.numbering(q, Number::sign(false))));
    }
    Ok(Next::More(s.matching(p, s.matched + 1)))
}

pub fn opening(s: State, b: u8) -> Result<Next, Fault>
    requires { s.matched < 13 }
    ensures { result ≡ grammar.expect grammar.opening Phase.Opening Phase.BeforeV s b }
{
    expect(b"* #variable= ", Phase::Opening, Phase::BeforeV, s, b)
}

pub fn middle(s: State, b: u8) -> Result<Next, Fault>
    requires { s.matched < 14 }
    ensures { result ≡ grammar.expect grammar.middle Phase.Middle Phase.BeforeC s b }
{
    expect(b" #constraint= ", Phase::Middle, Phase::BeforeC, s, b)
}

// Stays: ifs that return, here and in the phases that most bytes meet. A match was tried, too slow: it copies its answer once more (a text
// of blanks took 31.1 million instructions for 26.9).

// A digit, and no other byte.
pub fn digits(s: State, p: Phase, b: u8, class: Class) -> Result<Next, Fault>
    ensures { result ≡ grammar.digits s p b class }
{
    if class == Class::Digit {
        return Ok(Next::More(s.numbering(p, s.number.more(b))));
    }
    Err(Fault::Form)
}

// A number that may have a sign: phase p behind the sign, q behind a digit.
#[tactic(auto, unfolding(opb_grammar::specs::Grammar::begin))]
pub fn begin(p: Phase, q: Phase, s: State, b: u8, class: Class) -> Result<Next, Fault>
    ensures { result ≡ grammar.begin p q s b class }
{
    if class == Class::Digit {
        return Ok(Next::More(s.numbering(q, Number::sign(false).more(b))));
    }
    if class == Class::Plus {
        return Ok(Next::More(s.numbering(p, Number::sign(false))));
    }
    if class == Class::Minus {
        return Ok(Next::More(s.numbering(p, Number::sign(true))));
    }
    Err(Fault::Form)
}

// Outside constraints: blanks, or a constraint's first term.
#[tactic(auto, unfolding(opb_grammar::specs::Grammar::between))]
pub fn between(s: State, b: u8, class: Class) -> Result<Next, Fault>
    ensures { result ≡ grammar.between s b class }
{
    if b == b'\n' {
        return Ok(Next::More(s.at(Phase::LineStart)));
    }
    if class == Class::Blank {
        return Ok(Next::More(s.at(Phase::Between)));
    }
    begin(Phase::WeightSign, Phase::InWeight, s, b, class)
}

// A term is complete.
pub fn term(s: State) -> State
    requires { (s.counts.terms ≤ s.counts.entries) × (s.counts.entries < grammar.entries_limit) }
    ensures { result ≡ grammar.term s }
{
    let counts = Counts {
        terms: s.counts.terms + 1,
        entries: s.counts.entries + 1,
        ..s.counts
    };
    s.counting(Phase::AfterTerm, s.equal, counts)
}

// `>=` makes one sentence.
#[tactic(auto, unfolding(opb_grammar::specs::Grammar::relation_at_least))]
pub fn relation_at_least(s: State) -> Result<Next, Fault>
    ensures { result ≡ grammar.relation_at_least s }
{
    if s.counts.sentences >= Limits::SENTENCES {
        return Err(Fault::TooMany);
    }
    let counts = Counts {
        sentences: s.counts.sentences + 1,
        ..s.counts
    };
    Ok(Next::More(s.counting(Phase::AfterRelation, false, counts)))
}

// From so many sentences on there is no room for two more.
const NO_ROOM_FOR_TWO: u64 = Limits::SENTENCES - 1;

// `=` makes two sentences, with its terms once more.
#[tactic(auto, unfolding(opb_grammar::specs::Grammar::relation_equal))]
pub fn relation_equal(s: State) -> Result<Next, Fault>
    ensures { result ≡ grammar.relation_equal s }
{
    let room = opb_grammar::within(s.counts.entries, s.counts.terms, Limits::ENTRIES);
    if s.counts.sentences >= NO_ROOM_FOR_TWO || !room {
        return Err(Fault::TooMany);
    }
    let counts = Counts {
        entries: s.counts.entries + s.counts.terms,
        sentences: s.counts.sentences + 2,
        ..s.counts
    };
    Ok(Next::More(s.counting(Phase::AfterRelation, true, counts)))
}

// Behind the right side: blanks, or `;`.
#[tactic(auto, unfolding(opb_grammar::specs::Grammar::finish))]
pub fn finish(s: State, class: Class) -> Result<Next, Fault>
    ensures { result ≡ grammar.finish s class }
{
    match class {
        Class::Blank => Ok(Next::More(s.at(Phase::AfterBound))),
        Class::Semicolon => {
            let counts = Counts {
                terms: 0,
                ..s.counts
            };
            Ok(Next::Constraint(s.counting(Phase::Between, s.equal, counts)))
        }
        _ => Err(Fault::Form),
    }
}

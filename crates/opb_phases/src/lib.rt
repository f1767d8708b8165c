// What a byte makes of a state of an OPB text, in each phase that looks at more than one piece of the grammar.
#![tactic(auto, unfolding(opb_grammar::specs::Grammar::transition, opb_grammar::specs::Grammar::behind))]

ghost use Rattle.std.specs.Prelude.{◌≡◌, ◌≤◌};
ghost use Rattle.opb_classes.specs.declared.Class.{Class};
ghost use Rattle.opb_grammar.specs.Grammar.{transition};

use opb_classes::Class;
use opb_grammar::{Fault, Next, Number, Phase, Sizes, State};

pub fn in_v(s: State, b: u8, class: Class) -> Result<Next, Fault>
    ensures { result ≡ transition Phase.InV s b class }
{
    if class == Class::Digit {
        return opb_pieces::digits(s, Phase::InV, b, class);
    }
    s.check_v()?;
    let sizes = Sizes {
        variables: s.number.size,
        constraints: 0,
    };
    opb_pieces::middle(s.sizing(Phase::Middle, sizes), b)
}

pub fn in_c(s: State, b: u8, class: Class) -> Result<Next, Fault>
    ensures { result ≡ transition Phase.InC s b class }
{
    if class == Class::Digit {
        return opb_pieces::digits(s, Phase::InC, b, class);
    }
    s.check_c()?;
    let sizes = Sizes {
        constraints: s.number.size,
        ..s.sizes
    };
    match b {
        b'\n' => Ok(Next::More(s.sizing(Phase::LineStart, sizes))),
        b'\r' => Ok(Next::More(s.sizing(Phase::AfterReturn, sizes))),
        _ => Err(Fault::Form),
    }
}

pub fn after_return(s: State, b: u8) -> Result<Next, Fault>
    ensures { (class : Class) → result ≡ transition Phase.AfterReturn s b class }
{
    match b {
        b'\n' => Ok(Next::More(s.at(Phase::LineStart))),
        _ => Err(Fault::Form),
    }
}

pub fn line_start(s: State, b: u8, class: Class) -> Result<Next, Fault>
    ensures { result ≡ transition Phase.LineStart s b class }
{
    match class {
        Class::Star => Ok(Next::More(s.at(Phase::Comment))),
        _ => opb_pieces::between(s, b, class),
    }
}

pub fn comment(s: State, b: u8) -> Result<Next, Fault>
    ensures { (class : Class) → result ≡ transition Phase.Comment s b class }
{
    match b {
        b'\n' => Ok(Next::More(s.at(Phase::LineStart))),
        _ => Ok(Next::More(s.at(Phase::Comment))),
    }
}

pub fn in_weight(s: State, b: u8, class: Class) -> Result<Next, Fault>
    ensures { result ≡ transition Phase.InWeight s b class }
{
    if class == Class::Digit {
        return opb_pieces::digits(s, Phase::InWeight, b, class);
    }
    s.check_digits()?;
    if class == Class::Blank {
        return Ok(Next::More(s.weighing(Phase::BeforeX)));
    }
    Err(Fault::Form)
}

pub fn before_x(s: State, b: u8, class: Class) -> Result<Next, Fault>
    ensures { result ≡ transition Phase.BeforeX s b class }
{
    if class == Class::Blank {
        return Ok(Next::More(s.at(Phase::BeforeX)));
    }
    if class == Class::Ex {
        return Ok(Next::More(s.numbering(Phase::BeforeVariable, Number::sign(false))));
    }
    Err(Fault::Form)
}

pub fn before_variable(s: State, b: u8, class: Class) -> Result<Next, Fault>
    ensures { result ≡ transition Phase.BeforeVariable s b class }
{
    match b {
        b'0' => Err(Fault::Form),
        _ => opb_pieces::digits(s, Phase::InVariable, b, class),
    }
}

#[tactic(auto, using(opb_grammar::proofs::Sums::entry_left), unfolding(opb_grammar::specs::Grammar::transition, opb_grammar::specs::Grammar::behind))]
pub fn in_variable(s: State, b: u8, class: Class) -> Result<Next, Fault>
    requires { s.counts.terms ≤ s.counts.entries }
    ensures { result ≡ transition Phase.InVariable s b class }
{
    if class == Class::Digit {
        return opb_pieces::digits(s, Phase::InVariable, b, class);
    }
    s.check_variable()?;
    if class == Class::Blank {
        return Ok(Next::Term(opb_pieces::term(s)));
    }
    Err(Fault::Form)
}

pub fn after_term(s: State, b: u8, class: Class) -> Result<Next, Fault>
    ensures { result ≡ transition Phase.AfterTerm s b class }
{
    match class {
        Class::Blank => Ok(Next::More(s.at(Phase::AfterTerm))),
        Class::Greater => Ok(Next::More(s.at(Phase::AfterGreater))),
        Class::Equal => opb_pieces::relation_equal(s),
        _ => opb_pieces::begin(Phase::WeightSign, Phase::InWeight, s, b, class),
    }
}

pub fn after_greater(s: State, b: u8, class: Class) -> Result<Next, Fault>
    ensures { result ≡ transition Phase.AfterGreater s b class }
{
    match class {
        Class::Equal => opb_pieces::relation_at_least(s),
        _ => Err(Fault::Form),
    }
}

pub fn after_relation(s: State, b: u8, class: Class) -> Result<Next, Fault>
    ensures { result ≡ transition Phase.AfterRelation s b class }
{
    match class {
        Class::Blank => Ok(Next::More(s.at(Phase::BeforeBound))),
        _ => Err(Fault::Form),
    }
}

pub fn before_bound(s: State, b: u8, class: Class) -> Result<Next, Fault>
    ensures { result ≡ transition Phase.BeforeBound s b class }
{
    match class {
        Class::Blank => Ok(Next::More(s.at(Phase::BeforeBound))),
        _ => opb_pieces::begin(Phase::BoundSign, Phase::InBound, s, b, class),
    }
}

pub fn in_bound(s: State, b: u8, class: Class) -> Result<Next, Fault>
    ensures { result ≡ transition Phase.InBound s b class }
{
    if class == Class::Digit {
        return opb_pieces::digits(s, Phase::InBound, b, class);
    }
    s.check_digits()?;
    opb_pieces::finish(s, class)
}

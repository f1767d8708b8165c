// The grammar of OPB texts, as document 01 lays it down: an automaton that goes through a text byte by byte.
#![tactic(auto, unfolding(opb_grammar::specs::Grammar::transition, opb_grammar::specs::Grammar::ends))]

ghost use Rattle.std.specs.Prelude.{◌≡◌};
ghost use Rattle.std.specs.Result.{result_err};
ghost use Rattle.opb_grammar.specs.Grammar as grammar;
ghost use Rattle.opb_bytes.specs.Inner.States.{StateSound};

use opb_classes::Class;
use opb_grammar::{Counts, Fault, Next, Number, Phase, Sizes, State};

// ---- the automaton

// What a byte makes of a state, by the phase.
pub fn step(s: State, b: u8) -> Result<Next, Fault>
    requires { StateSound s }
    ensures { result ≡ grammar.step s b }
{
    let class = Class::of(b);
    match s.phase {
        Phase::Opening => opb_pieces::opening(s, b),
        Phase::BeforeV => opb_pieces::digits(s, Phase::InV, b, class),
        Phase::InV => opb_phases::in_v(s, b, class),
        Phase::Middle => opb_pieces::middle(s, b),
        Phase::BeforeC => opb_pieces::digits(s, Phase::InC, b, class),
        Phase::InC => opb_phases::in_c(s, b, class),
        Phase::AfterReturn => opb_phases::after_return(s, b),
        Phase::LineStart => opb_phases::line_start(s, b, class),
        Phase::Between => opb_pieces::between(s, b, class),
        Phase::Comment => opb_phases::comment(s, b),
        Phase::WeightSign => opb_pieces::digits(s, Phase::InWeight, b, class),
        Phase::InWeight => opb_phases::in_weight(s, b, class),
        Phase::BeforeX => opb_phases::before_x(s, b, class),
        Phase::BeforeVariable => opb_phases::before_variable(s, b, class),
        Phase::InVariable => opb_phases::in_variable(s, b, class),
        Phase::AfterTerm => opb_phases::after_term(s, b, class),
        Phase::AfterGreater => opb_phases::after_greater(s, b, class),
        Phase::AfterRelation => opb_phases::after_relation(s, b, class),
        Phase::BeforeBound => opb_phases::before_bound(s, b, class),
        Phase::BoundSign => opb_pieces::digits(s, Phase::InBound, b, class),
        Phase::InBound => opb_phases::in_bound(s, b, class),
        Phase::AfterBound => opb_pieces::finish(s, class),
    }
}

// ---- the end of the text

// Ok where the text may end, else what it is refused for.
pub fn check_end(s: State) -> Result<(), Fault>
    ensures { result_err result ≡ grammar.ends s.phase s }
{
    match s.phase {
        Phase::InV => s.check_v().and(Err(Fault::Form)),
        Phase::InC => s.check_c().and(Err(Fault::Form)),
        Phase::InVariable => s.check_variable().and(Err(Fault::Form)),
        Phase::InWeight | Phase::InBound => s.check_digits().and(Err(Fault::Form)),
        Phase::LineStart | Phase::Between | Phase::Comment => Ok(()),
        _ => Err(Fault::Form),
    }
}

// ---- the start of the text

// The state before the first byte.
pub fn start() -> State
    ensures { result ≡ grammar.begins }
{
    State {
        phase: Phase::Opening,
        matched: 0,
        number: Number::sign(false),
        weight: Number::sign(false),
        equal: false,
        sizes: Sizes {
            variables: 0,
            constraints: 0,
        },
        counts: Counts {
            terms: 0,
            entries: 0,
            sentences: 0,
        },
    }
}

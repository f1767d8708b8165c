// The names in a console's line: of commands, of kinds and of sides.
#![tactic(auto)]

ghost use Rattle.std.specs.Prelude.{◌≡◌};
ghost use Rattle.console_names.specs.Names.{name_of, kind_of, side_of};

// The commands of one word, those about a literal, and those about a level or a sentence.
#[derive(Clone, Copy, Debug, PartialEq, Eq)]
pub enum Bare {
    Open,
    Propagate,
    Trail,
}

#[derive(Clone, Copy, Debug, PartialEq, Eq)]
pub enum OfLiteral {
    Give,
    Why,
    Origin,
}

#[derive(Clone, Copy, Debug, PartialEq, Eq)]
pub enum OfNumber {
    Back,
    Bounds,
    Conflict,
}

// The first word of a command's line.
#[derive(Clone, Copy, Debug, PartialEq, Eq)]
pub enum Name {
    Plan,
    Rule,
    Bare(Bare),
    Literal(OfLiteral),
    Number(OfNumber),
}

#[tactic(auto, using(crate::proofs::Names::bytes_read), unfolding(crate::specs::Names::name_of))]
pub fn read_name(word: &[u8]) -> Option<Name>
    ensures { result ≡ name_of word.now }
{
    match word {
        b"plan" => Some(Name::Plan),
        b"rule" => Some(Name::Rule),
        b"give" => Some(Name::Literal(OfLiteral::Give)),
        b"open" => Some(Name::Bare(Bare::Open)),
        b"propagate" => Some(Name::Bare(Bare::Propagate)),
        b"back" => Some(Name::Number(OfNumber::Back)),
        b"bounds" => Some(Name::Number(OfNumber::Bounds)),
        b"why" => Some(Name::Literal(OfLiteral::Why)),
        b"conflict" => Some(Name::Number(OfNumber::Conflict)),
        b"origin" => Some(Name::Literal(OfLiteral::Origin)),
        b"trail" => Some(Name::Bare(Bare::Trail)),
        _ => None,
    }
}

// Stays: document 01 numbers the kinds and the sides, and load's columns take those numbers.
#[tactic(auto, using(crate::proofs::Names::bytes_read), unfolding(crate::specs::Names::kind_of))]
pub fn read_kind(word: &[u8]) -> Option<u64>
    ensures { result ≡ kind_of word.now }
{
    match word {
        b"sum" => Some(0),
        b"product" => Some(1),
        b"count" => Some(2),
        b"max" => Some(3),
        b"min" => Some(4),
        _ => None,
    }
}

#[tactic(auto, using(crate::proofs::Names::bytes_read), unfolding(crate::specs::Names::side_of))]
pub fn read_side(word: &[u8]) -> Option<u64>
    ensures { result ≡ side_of word.now }
{
    match word {
        b">=" => Some(0),
        b"<=" => Some(1),
        _ => None,
    }
}

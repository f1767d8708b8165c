// The command that a console's line is.
#![tactic(auto)]

ghost use Rattle.std.specs.Prelude.{◌≡◌, option_map};
ghost use Rattle.console_words.specs.Words.{words};
ghost use Rattle.console_text.specs.Command.{only_word, plan_of, rule_of, by_name, command_of};

use console_names::{Bare, Name, OfLiteral, OfNumber};

// A rule without its entries: how many it has.
#[derive(Clone, Copy, Debug, PartialEq, Eq)]
pub struct Rule {
    pub head: i64,
    // Stays: load's columns take document 01's numbers of kinds and sides.
    pub kind: u64,
    pub side: u64,
    pub bound: i64,
    pub entries: u64,
}

// What a line is that is right.
#[derive(Clone, Copy, Debug, PartialEq, Eq)]
pub enum Command {
    Empty,
    Comment,
    Plan(u64, u64),
    Rule(Rule),
    Bare(Bare),
    Literal(OfLiteral, i64),
    Number(OfNumber, u64),
}

// ---- what stands behind a command's name; none where it is not what the command takes

fn only_word(line: &[u8]) -> Option<&[u8]>
    ensures { option_map (λ w. w.now) result ≡ only_word (words line.now) }
{
    let (word, rest) = console_words::split_word(line)?;
    match console_words::split_word(rest) {
        Some(_) => None,
        None => Some(word),
    }
}

fn read_plan(line: &[u8]) -> Option<Command>
    ensures { result ≡ plan_of (words line.now) }
{
    let (word, rest) = console_words::split_word(line)?;
    let atoms = console_words::read_unsigned(word)?;
    let sentences = console_words::read_unsigned(only_word(rest)?)?;
    Some(Command::Plan(atoms, sentences))
}

fn read_rule(line: &[u8]) -> Option<Command>
    ensures { result ≡ rule_of (words line.now) }
{
    let (head, behind_head) = console_words::split_word(line)?;
    let (kind, behind_kind) = console_words::split_word(behind_head)?;
    let (side, behind_side) = console_words::split_word(behind_kind)?;
    let (bound, rest) = console_words::split_word(behind_side)?;
    Some(Command::Rule(Rule {
        head: console_words::read_signed(head)?,
        kind: console_names::read_kind(kind)?,
        side: console_names::read_side(side)?,
        bound: console_words::read_signed(bound)?,
        entries: console_entries::count_entries(rest)?,
    }))
}

fn by_name(name: Name, line: &[u8]) -> Option<Command>
    ensures { result ≡ by_name name (words line.now) }
{
    match name {
        Name::Plan => read_plan(line),
        Name::Rule => read_rule(line),
        Name::Bare(command) => match console_words::split_word(line) {
            Some(_) => None,
            None => Some(Command::Bare(command)),
        },
        Name::Literal(command) => {
            let literal = console_words::read_signed(only_word(line)?)?;
            Some(Command::Literal(command, literal))
        }
        Name::Number(command) => {
            let number = console_words::read_unsigned(only_word(line)?)?;
            Some(Command::Number(command, number))
        }
    }
}

// The command that a line is; none where it is wrong.
pub fn parse(line: &[u8]) -> Option<Command>
    ensures { result ≡ command_of line.now }
{
    let Some((word, rest)) = console_words::split_word(line) else {
        return Some(Command::Empty);
    };
    if word[0] == b'#' {
        return Some(Command::Comment);
    }
    by_name(console_names::read_name(word)?, rest)
}

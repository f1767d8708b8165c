// A console for planners: standard input line by line, and for each command one answer line on standard output, written before more is
// read. What a line means stands in the crate `console_text`; every answer comes from the library.
#![tactic(auto)]

ghost use Rattle.std.specs.Prelude.{◌≡◌, ℕ, ◌≤◌, length, Some};
ghost use Rattle.console.specs.declared.TheConstants.{LINE};

use columns::{Columns, Refusal};
use console_answers::{LIST, ROWS};
use console_names::{Bare, OfLiteral, OfNumber};
use console_text::{Command, Rule};
use std::io::{Read, Stdin};
use types::{Atom, Counters, Level, Limits, Sentence};

// The longest line.
const LINE: usize = 65_536;

const RULES: usize = Limits::SENTENCES as usize;

const ENTRIES: usize = Limits::ENTRIES as usize;

const WORDS: usize = 4 * Limits::ATOMS as usize + 8 * RULES + 2 * ENTRIES;

// ---- plans

// How far a plan has been read: its atoms, the rules that it is to have, and the rules and entries that it has so far.
#[derive(Clone, Copy)]
struct Reading {
    atoms: u64,
    expected: u64,
    rules: u64,
    entries: u64,
}

// The columns of a plan: its first rules and entries, as many as load takes.
#[derive(Clone, Copy)]
struct Plan {
    heads: [u64; RULES],
    kinds: [u64; RULES],
    sides: [u64; RULES],
    bounds: [i64; RULES],
    counts: [u64; RULES],
    weights: [i64; ENTRIES],
    literals: [i64; ENTRIES],
}

impl Plan {
    fn new() -> Plan {
        Plan {
            heads: [0; RULES],
            kinds: [0; RULES],
            sides: [0; RULES],
            bounds: [0; RULES],
            counts: [0; RULES],
            weights: [0; ENTRIES],
            literals: [0; ENTRIES],
        }
    }

    // One rule more, of that line. The count of entries that are not stored is there, so that load refuses.
    fn add(&mut self, read: Reading, rule: Rule, line: &[u8]) {
        let i = read.rules as usize;
        if i < RULES {
            // no atom has a negative number, nor the number 0
            self.heads[i] = u64::try_from(rule.head).unwrap_or(0);
            self.kinds[i] = rule.kind;
            self.sides[i] = rule.side;
            self.bounds[i] = rule.bound;
            self.counts[i] = rule.entries;
        }
        console_entries::read_entries(
            line,
            &mut self.weights,
            &mut self.literals,
            read.entries as usize,
        );
    }

    fn columns(&self, read: Reading) -> Columns<'_> {
        let rules = RULES.min(read.rules as usize);
        let entries = ENTRIES.min(read.entries as usize);
        Columns {
            heads: &self.heads[..rules],
            kinds: &self.kinds[..rules],
            sides: &self.sides[..rules],
            bounds: &self.bounds[..rules],
            counts: &self.counts[..rules],
            weights: &self.weights[..entries],
            literals: &self.literals[..entries],
        }
    }
}

// ---- commands

// What is kept from line to line: the area and its counters, and the plan that is being read, if one is.
#[derive(Clone, Copy)]
struct Desk {
    area: [u64; WORDS],
    counters: Counters,
    plan: Plan,
    reading: Option<Reading>,
}

impl Desk {
    fn new() -> Desk {
        Desk {
            area: [0; WORDS],
            counters: Counters::start(),
            plan: Plan::new(),
            reading: None,
        }
    }

    // The line is none of the commands: a plan that is being read is dropped.
    fn refuse_line(&mut self, number: u64) {
        console_answers::answer_wrong(number);
        self.reading = None;
    }

    fn bare(&mut self, command: Bare) {
        match command {
            Bare::Open => {
                let answer = dalelead::open_level(&mut self.area, self.counters);
                console_answers::answer_done(b"open ", answer);
                self.counters = answer.unwrap_or(self.counters);
            }
            Bare::Propagate => {
                let answer = dalelead::propagate(&mut self.area, self.counters);
                console_answers::answer_propagated(answer);
                if let Ok(stopped) = answer {
                    self.counters = stopped.counters();
                }
            }
            Bare::Trail => {
                let mut list = [0i64; ROWS];
                let answer = dalelead::list_trail(&self.area, self.counters, &mut list);
                console_answers::answer_trail(answer, &list);
            }
        }
    }

    fn of_literal(&mut self, command: OfLiteral, literal: i64) {
        let mut list = [0i64; LIST];
        match command {
            OfLiteral::Give => {
                let answer = dalelead::give(&mut self.area, self.counters, literal);
                console_answers::answer_done(b"give ", answer);
                self.counters = answer.unwrap_or(self.counters);
            }
            OfLiteral::Why => {
                let answer = dalelead::explain(&self.area, self.counters, literal, &mut list);
                console_answers::answer_list(b"why", answer, &list);
            }
            OfLiteral::Origin => {
                let answer = dalelead::origin(&self.area, self.counters, literal, &mut list);
                console_answers::answer_list(b"origin", answer, &list);
            }
        }
    }

    fn of_number(&mut self, command: OfNumber, number: u64) {
        match command {
            OfNumber::Back => {
                let answer = dalelead::take_back(&mut self.area, self.counters, Level(number));
                console_answers::answer_done(b"back ", answer);
                self.counters = answer.unwrap_or(self.counters);
            }
            OfNumber::Bounds => {
                let answer = dalelead::bounds(&self.area, self.counters, Sentence(number));
                console_answers::answer_bounds(answer);
            }
            OfNumber::Conflict => {
                let mut list = [0i64; LIST];
                let sentence = Sentence(number);
                let answer = dalelead::explain_conflict(
                    &self.area,
                    self.counters,
                    sentence,
                    &mut list,
                );
                console_answers::answer_list(b"conflict-why", answer, &list);
            }
        }
    }

    // The plan has all its rules.
    fn load_plan(&mut self, read: Reading) {
        let columns = self.plan.columns(read);
        let answer = dalelead::load(&mut self.area, Atom(read.atoms), columns);
        console_answers::answer_plan(answer);
        self.reading = None;
        self.counters = answer.unwrap_or(self.counters);
    }

    // A plan without rules is loaded at once; one outside the limits gets load's refusal, and no rule is expected.
    fn begin_plan(&mut self, atoms: u64, expected: u64) {
        let limits = Limits::document();
        if atoms == 0 || atoms > limits.atoms || expected > limits.sentences {
            console_answers::answer_plan(Err(Refusal::Misshapen));
            return;
        }
        let read = Reading {
            atoms,
            expected,
            rules: 0,
            entries: 0,
        };
        if expected == 0 {
            self.load_plan(read);
        } else {
            self.reading = Some(read);
        }
    }

    // A rule of the plan that is being read; the plan is loaded behind its last.
    fn add_rule(&mut self, read: Reading, rule: Rule, line: &[u8]) {
        self.plan.add(read, rule, line);
        let next = Reading {
            rules: read.rules.saturating_add(1),
            entries: read.entries.saturating_add(rule.entries),
            ..read
        };
        if next.rules < next.expected {
            self.reading = Some(next);
        } else {
            self.load_plan(next);
        }
    }

    // A line of at most 65,536 bytes.
    fn take_line(&mut self, number: u64, line: &[u8]) {
        let Some(command) = console_text::parse(line) else {
            return self.refuse_line(number);
        };
        if let Some(read) = self.reading {
            return match command {
                Command::Comment => {}
                Command::Rule(rule) => self.add_rule(read, rule, line),
                _ => self.refuse_line(number),
            };
        }
        match command {
            Command::Empty | Command::Comment => {}
            Command::Rule(_) => self.refuse_line(number),
            Command::Plan(atoms, sentences) => self.begin_plan(atoms, sentences),
            Command::Bare(name) => self.bare(name),
            Command::Literal(name, literal) => self.of_literal(name, literal),
            Command::Number(name, number) => self.of_number(name, number),
        }
    }
}

// ---- lines

// What is kept from byte to byte: the number of lines that have ended, and the bytes of the next one so far: how many they are, `None` where
// they are too many for a line.
#[derive(Clone, Copy)]
struct Lines {
    ended: u64,
    line: [u8; LINE],
    held: Option<usize>,
    ghost fits: { (n : ℕ) → held ≡ Some n → n ≤ LINE },
}

impl Lines {
    fn new() -> Lines {
        Lines {
            ended: 0,
            line: [0; LINE],
            held: Some(0),
        }
    }

    // One line more, and none of the next.
    fn end(&mut self, desk: &mut Desk) {
        self.ended = self.ended.saturating_add(1);
        match self.held {
            Some(held) => desk.take_line(self.ended, &self.line[..held]),
            None => desk.refuse_line(self.ended),
        }
        self.held = Some(0);
    }

    fn take(&mut self, desk: &mut Desk, b: u8) {
        if b == b'\n' {
            return self.end(desk);
        }
        self.held = match self.held {
            Some(held) if held < LINE => {
                self.line[held] = b;
                Some(held + 1)
            }
            _ => None,
        };
    }

    // The end: a line without an LF is a line, and where rules are still expected the end is one more line that is none.
    fn finish(&mut self, desk: &mut Desk) {
        if self.held != Some(0) {
            self.end(desk);
        }
        if desk.reading.is_some() {
            desk.refuse_line(self.ended.saturating_add(1));
        }
    }
}

// What comes next on standard input; nothing at its end, nor where it cannot be read.
fn read_some(mut from: Stdin, input: &mut [u8]) -> usize
    ensures { result ≤ length input.new }
{
    from.read(input).unwrap_or(0)
}

// Reads to the end. No input outlasts the turns: each but the last takes a byte of it.
fn main(rt: HostRuntime) {
    let mut input = [0u8; 4096];
    let mut lines = Lines::new();
    let mut desk = Desk::new();
    // Stays: a `loop` has to be proved to end, and nothing says that an input does.
    for _ in 0..u64::MAX {
        let n = read_some(rt.stdin(), &mut input);
        if n == 0 {
            break;
        }
        for &b in &input[..n] {
            lines.take(&mut desk, b);
        }
    }
    lines.finish(&mut desk);
}

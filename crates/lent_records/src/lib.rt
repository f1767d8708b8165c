// A list of records as load's two columns of entries: one record copied into them, and load from the copy.
#![tactic(auto)]

ghost use Rattle.std.specs.Prelude.{◌≡◌, List, ◌<◌, set, IfOk};
ghost use Rattle.types.specs.Limits.{document};
ghost use Rattle.types.specs.Counters.{start};
ghost use Rattle.columns.specs.Answers.{answer_of};
ghost use Rattle.load.specs.Load.{Loads};
ghost use Rattle.lent_records.specs.Columns.{with_records};
ghost use Rattle.lent_records.specs.Inner.Copy.{CopyOf};

use columns::{Columns, Refusal};
use types::{Atom, Counters, Limits};

// A literal with its weight.
#[derive(Clone, Copy, Debug, PartialEq, Eq)]
pub struct Weighted {
    pub weight: i64,
    pub literal: i64,
}

// The most entries that load takes.
const MOST: usize = Limits::ENTRIES as usize;

// One number a sentence in each column.
#[derive(Clone, Copy)]
pub struct Sentences<'a> {
    pub heads: &'a [u64],
    pub kinds: &'a [u64],
    pub sides: &'a [u64],
    pub bounds: &'a [i64],
    pub counts: &'a [u64],
}

// The two columns of a list of records: how many records there are, and the first of them, as many as load takes.
#[derive(Clone, Copy)]
pub struct Copied {
    pub weights: [i64; MOST],
    pub literals: [i64; MOST],
    pub count: usize,
}

// Before anything is copied.
pub fn blank() -> Copied {
    Copied {
        weights: [0; MOST],
        literals: [0; MOST],
        count: 0,
    }
}

// One record, into both columns where it is inside them.
pub fn copy_one(copied: &mut Copied, i: usize, record: Weighted)
    ensures { (i < document.entries) → (copied.new.weights ≡ set copied.old.weights i record.weight) × (copied.new.literals ≡ set copied.old.literals i record.literal) }
{
    if i < MOST {
        copied.weights[i] = record.weight;
        copied.literals[i] = record.literal;
    }
}

// More records than load takes are refused by load's first number; otherwise the columns are as long as the records.
#[tactic(auto, using(crate::proofs::Records::many_refused))]
pub fn load_copied(
    area: &mut [u64],
    atoms: Atom,
    sentences: Sentences<'_>,
    copied: &Copied,
) -> Result<Counters, Refusal>
    ensures loads { (records : List Weighted) → CopyOf document.entries records copied.now → Loads document area.old area.new
        atoms.0 (with_records sentences.entry records) (answer_of result) }
    ensures counters { IfOk result (λ c. c ≡ start) }
{
    // Stays: read once: the slices below end there.
    let n = copied.count;
    if n > MOST {
        return Err(Refusal::Misshapen);
    }
    dalelead::load(
        area,
        atoms,
        Columns {
            heads: sentences.heads,
            kinds: sentences.kinds,
            sides: sentences.sides,
            bounds: sentences.bounds,
            counts: sentences.counts,
            weights: &copied.weights[..n],
            literals: &copied.literals[..n],
        },
    )
}

// The first pass of the merge: each written entry is put onto the entry with its literal, or behind all others.
#![tactic(auto)]

ghost use Rattle.std.specs.Prelude.{◌≡◌, true, false, ◌≤◌, get_or, set};
ghost use Rattle.kinds.specs.Kinds.{meant};
ghost use Rattle.columns.specs.Columns.{paired};
ghost use Rattle.gather.specs.Inner.Gather.{PutReady, PutInto, taken, Addable, EntryAdded, Collected, Mergeable};

use kinds::Kind;
use types::HALF;

// How many entries are left, and the word of the constant.
#[derive(Clone, Copy, Debug, PartialEq, Eq)]
pub struct Merged {
    pub count: usize,
    pub constant: u64,
}

// One entry more: onto the entry with its literal, or behind all others. Says how many there are then. In the table stands 1 more than
// the place of a literal's entry, at the literal's word, or 0.
// Stays: the new form is no plainer, since a table of Options, twice as wide, takes twice the time to set up for each sentence.
fn put(part: &mut [u64], table: &mut [u16; 8194], count: usize, kind: Kind, x: u64, l: u64) -> usize
    requires { PutReady part.old table.old count (meant kind) x l }
    ensures { PutInto part.old part.new table.new count (meant kind) x l result }
{
    let at = l as usize;
    let p = table[at] as usize;
    if p == 0 {
        part[2 * count] = x;
        part[2 * count + 1] = l;
        table[at] = (count + 1) as u16;
        return count + 1;
    }
    let k = 2 * (p - 1);
    part[k] = entry_words::join(kind, part[k], x);
    count
}

// Whether an entry is taken: a count takes a literal once. The literal is noted.
fn takes(seen: &mut [bool; 8194], kind: Kind, l: u64) -> bool
    requires { l ≤ 8193 }
    ensures { (result ≡ taken (meant kind) (get_or seen.old l false)) × (seen.new ≡ set seen.old l true) }
{
    let at = l as usize;
    let before = seen[at];
    seen[at] = true;
    kind != Kind::Count || !before
}

// One written entry more, as words.
fn add(
    part: &mut [u64],
    table: &mut [u16; 8194],
    seen: &mut [bool; 8194],
    kind: Kind,
    x: u64,
    l: u64,
    m: Merged,
) -> Merged
    requires { Addable part.old table.old seen.old (meant kind) x l m }
    ensures { EntryAdded part.old table.old seen.old part.new table.new seen.new (meant kind) x l m result }
{
    if !takes(seen, kind, l) {
        return m;
    }
    let t = entry_words::turn(kind, x, l);
    let constant = m.constant + t.freed - HALF;
    let count = put(part, table, m.count, kind, t.weight, t.literal);
    Merged { count, constant }
}

// The first pass: all entries, merged as they come.
pub fn gather(part: &mut [u64], kind: Kind, weights: &[i64], literals: &[i64]) -> Merged
    requires { Mergeable part.old (meant kind) weights.now literals.now }
    ensures { Collected (meant kind) (paired weights.now literals.now) part.new result.count result.constant }
{
    let mut table = [0u16; 8194];
    let mut seen = [false; 8194];
    let mut m = Merged {
        count: 0,
        constant: HALF,
    };
    for (i, w) in weights.iter().enumerate() {
        let x = entry_words::number_word(*w);
        let l = entry_words::literal_word(literals[i]);
        m = add(part, &mut table, &mut seen, kind, x, l, m);
    }
    m
}

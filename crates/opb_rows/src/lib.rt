// The columns of an OPB text, a term or a constraint at a time, from the state that has just read it.
#![tactic(auto)]

ghost use Rattle.std.specs.Prelude.{◌≡◌, cond, ◌+◌, ◌≤◌, length};
ghost use Rattle.std.proofs.lemmas.List.Edits.{sets};
ghost use Rattle.opb_grammar.specs.Grammar.{size_limit};
ghost use Rattle.opb_rows.specs.Columns.{held_of, SameColumns};
ghost use Rattle.opb_rows.specs.Signed.{signed_of};
ghost use Rattle.opb_rows.specs.Inner.Rows.{both, first_row, copied, with_term, with_rows, TermRoom, RowsRoom};

use opb_grammar::{Number, State};

// Load's columns, lent to be filled.
#[derive(Drop)]
pub struct ColumnsMut<'a> {
    pub heads: &'a mut [u64],
    pub kinds: &'a mut [u64],
    pub sides: &'a mut [u64],
    pub bounds: &'a mut [i64],
    pub counts: &'a mut [u64],
    pub weights: &'a mut [i64],
    pub literals: &'a mut [i64],
}

// A number of the text with its sign.
fn signed_value(n: Number) -> i64
    requires { n.size ≤ size_limit }
    ensures { result ≡ signed_of n }
{
    let size = n.size as i64;
    if n.minus { -size } else { size }
}

// A value in each row of the constraint that has just been read: one row, or for `=` two.
fn put<T: Copy>(column: &mut [T], s: State, x: T, y: T)
    requires { (cond s.equal 2 1 ≤ s.counts.sentences) × (s.counts.sentences ≤ length column.old) }
    ensures { column.new ≡ sets column.old (first_row s) (both s.equal x y) }
{
    let end = s.counts.sentences as usize;
    if s.equal {
        column[end - 2] = x;
        column[end - 1] = y;
    } else {
        column[end - 1] = x;
    }
}

// The terms of the constraint that has just been read, for `=` once more.
#[tactic(auto, using(crate::proofs::Stores::is_copied))]
fn copy(column: &mut [i64], s: State)
    requires { (cond s.equal (s.counts.terms + s.counts.terms) 0 ≤ s.counts.entries) × (s.counts.entries ≤ length column.old) }
    ensures { column.new ≡ copied s column.old }
{
    if s.equal {
        let terms = s.counts.terms as usize;
        let end = s.counts.entries as usize - terms;
        column.copy_within(end - terms..end, end);
    }
}

impl ColumnsMut<'_> {
    // The term that has just been read, behind the entries before it.
    pub fn put_term(&mut self, s: State)
        requires { TermRoom s (held_of self.old) }
        ensures same { SameColumns self.old self.new }
        ensures holds { held_of self.new ≡ with_term s (held_of self.old) }
    {
        let at = s.counts.entries as usize;
        self.weights[at] = signed_value(s.weight);
        self.literals[at] = s.number.size as i64;
    }

    // The rows of the constraint that has just been read.
    pub fn put_rows(&mut self, s: State, head: u64)
        requires { RowsRoom s (held_of self.old) }
        ensures same { SameColumns self.old self.new }
        ensures holds { held_of self.new ≡ with_rows s head (held_of self.old) }
    {
        let bound = signed_value(s.number);
        put(self.heads, s, head, head);
        put(self.kinds, s, 0, 0);
        put(self.sides, s, 0, 1);
        put(self.bounds, s, bound, bound);
        put(self.counts, s, s.counts.terms, s.counts.terms);
        copy(self.weights, s);
        copy(self.literals, s);
    }
}

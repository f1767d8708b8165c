// Where a caller's literal stands on the trail of the area, or the refusal that it meets.
#![tactic(auto)]

ghost use Rattle.literals.specs.Inner.Literals.{IsAtom};
ghost use Rattle.area.specs.Layout.{atoms_of, length_of};
ghost use Rattle.causes.specs.Inner.Causes.{TrailAsked, PositionIs};
ghost use Rattle.located.specs.Inner.Located.{LocatedIs};

use calls::Refusal;

// Where a literal of that atom stands among the rows, if it does.
fn position_of(area: &[u64], n: usize, rows: usize, literal: i64, atom: usize) -> Option<usize>
    requires { TrailAsked area.now n rows × IsAtom n literal atom }
    ensures { PositionIs area.now n literal rows result }
{
    let v = area::value_at(area, n, atom);
    if v == 0 || ((v - 1) % 2 == 1) != literal.is_negative() {
        return None;
    }
    Some(((v - 1) / 2) as usize)
}

// The position of the literal on the trail of the area.
pub fn locate(area: &[u64], literal: i64) -> Result<usize, Refusal>
    requires { TrailAsked area.now (atoms_of area.now) (length_of area.now) }
    ensures { LocatedIs area.now literal result }
{
    let n = area::atoms_of(area);
    let atom = literals::atom_of(literal, n).ok_or(Refusal::NoAtom)?;
    position_of(area, n, area::length_of(area), literal, atom).ok_or(Refusal::NotOnTrail)
}

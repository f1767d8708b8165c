// The heads of a text's constraints, given on the whole area that load leaves; no give checks it again.
#![tactic(auto)]

ghost use Rattle.listing_heads.specs.Heads.{HeadsAsked, HeadsGiven};

use types::Counters;

// The heads are the atoms behind the variables. The area is whole and stays so.
pub fn give_heads(area: &mut [u64], variables: u64, constraints: u64) -> Counters
    requires { HeadsAsked area.old variables constraints }
    ensures { HeadsGiven area.old area.new variables constraints result }
{
    let mut current = Counters::start();
    for k in 0..constraints {
        current = give::give_whole(area, current, (variables + k + 1) as i64).unwrap_or(current);
    }
    current
}

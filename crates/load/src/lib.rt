// Load: the lent columns are checked, and then the area is written and each sentence gets its bounds over the empty trail.
#![tactic(auto)]

ghost use Rattle.std.specs.Prelude.{◌≡◌, IfOk};
ghost use Rattle.types.specs.Limits.{document, Fitting};
ghost use Rattle.types.specs.Counters.{start};
ghost use Rattle.columns.specs.Columns.{held};
ghost use Rattle.columns.specs.Answers.{answer_of};
ghost use Rattle.load.specs.Load.{Loads};

use area::Sizes;
use columns::{Columns, Refusal};
use types::{Atom, Counters, Limits};

// Under a caller's limits. Every atom counts as changed, so that every sentence gets its bounds.
pub fn load_within(
    area: &mut [u64],
    lim: Limits,
    atoms: Atom,
    columns: Columns<'_>,
) -> Result<Counters, Refusal>
    requires { Fitting lim }
    ensures loads { Loads lim area.old area.new atoms.0 (held columns.entry) (answer_of result) }
    ensures counters { IfOk result (λ c. c ≡ start) }
{
    load_check::check(area.len(), lim, atoms, columns)?;
    let sizes = Sizes {
        atoms: atoms.0 as usize,
        sentences: columns.heads.len(),
    };
    store::store_all(area, sizes.atoms, columns);
    let touched = [1u8; 4097];
    refresh::refresh(area, sizes, &touched);
    Ok(Counters::start())
}

// Under the limits of document 01.
pub fn load(area: &mut [u64], atoms: Atom, columns: Columns<'_>) -> Result<Counters, Refusal>
    ensures loads { Loads document area.old area.new atoms.0 (held columns.entry) (answer_of result) }
    ensures counters { IfOk result (λ c. c ≡ start) }
{
    load_within(area, Limits::document(), atoms, columns)
}

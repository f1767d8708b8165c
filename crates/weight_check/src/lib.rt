// A written sentence's weights and its bound, looked at before a word is written: that each is in its range, and that the product of all
// weights, which merging keeps, is. Load's refusals 5 and 8.
#![tactic(auto)]

ghost use Rattle.std.specs.Prelude.{◌≡◌, false, not, ◌||◌};
ghost use Rattle.meaning.specs.Meaning.{product};
ghost use Rattle.kinds.specs.Kinds.{meant, between};
ghost use Rattle.columns.specs.Refusals.{bound_fits};
ghost use Rattle.columns.specs.Indexed.{unfit_weights, product_above};

use kinds::Kind;
use types::Limits;

const GREATEST_PRODUCT: u64 = Limits::BOUND as u64;

fn within(least: i64, greatest: i64, w: i64) -> bool
    ensures { result ≡ between least greatest w }
{
    least <= w && w <= greatest
}

fn unfit(kind: Kind, weights: &[i64]) -> bool
    ensures { result ≡ unfit_weights (meant kind) weights.now }
{
    let least = kind.least();
    let greatest = kind.greatest();
    weights.iter().any(|w| !within(least, greatest, *w))
}

pub fn out_of_range(kind: Kind, bound: i64, weights: &[i64]) -> bool
    ensures { result ≡ (unfit_weights (meant kind) weights.now || not (bound_fits bound)) }
{
    unfit(kind, weights) || !within(-Limits::BOUND, Limits::BOUND, bound)
}

pub fn too_great(weights: &[i64]) -> bool
    requires { unfit_weights product weights.now ≡ false }
    ensures { result ≡ product_above weights.now }
{
    let mut product = 1;
    for weight in weights {
        let size = weight.unsigned_abs();
        if product > GREATEST_PRODUCT / size {
            return true;
        }
        product *= size;
    }
    false
}

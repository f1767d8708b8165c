// The check of a stored sentence's single words: its constant, and the weight and literal of an entry. It knows no list of words.
#![tactic(auto)]

ghost use Rattle.std.specs.Prelude.{◌≡◌, ℕ, ◌≤◌, ◌<◌, MatchOption};
ghost use Rattle.types.specs.Limits.{bound_limit, widest};
ghost use Rattle.decide.specs.Inner.Tells.{Tells};
ghost use Rattle.numbers.specs.Words.{half, unbias};
ghost use Rattle.kinds.specs.Kinds.{meant};
ghost use Rattle.area.specs.Layout.{entry_of};
ghost use Rattle.area.specs.Whole.{Near, SumWeight, ProductWeight, WeightWhole, EntryWhole};
ghost use Rattle.word_check.specs.Inner.Words.{ConstantOk, Grown, Past};

use kinds::{Aggregate, Kind, Max, Min, Product, Sum};
use types::{HALF, Limits};

// The largest size of a bound, and of a product.
const BOUND: u64 = Limits::BOUND as u64;

// The most that a written entry of a sum or a count adds to a weight, or to the constant: a count is merged as a sum.
const ADDEND: u64 = Sum::GREATEST_WEIGHT as u64;

// The word of the least weight of a product.
const LEAST_FACTOR: u64 = HALF + Product::LEAST_WEIGHT as u64;

// The largest size of a maximum's weight, and of a minimum's.
const IN_MAX: u64 = Max::GREATEST_WEIGHT as u64;

const IN_MIN: u64 = Min::GREATEST_WEIGHT as u64;

pub fn near(x: u64, limit: u64) -> bool
    requires { limit ≤ half }
    ensures { Tells result (Near (unbias x) limit) }
{
    (HALF - limit..=HALF + limit).contains(&x)
}

#[tactic(auto, using(crate::proofs::Weights::of_sum))]
fn added(written: u64, weight: u64, literal: u64) -> bool
    requires { (written ≤ widest.each) × (2 ≤ literal) }
    ensures { Tells result (SumWeight written (entry_of weight literal)) }
{
    literal % 2 == 0 && weight != HALF && near(weight, ADDEND * written)
}

#[tactic(auto, using(crate::proofs::Weights::of_product))]
fn multiplied(weight: u64) -> bool
    ensures { (literal : ℕ) → Tells result (ProductWeight (entry_of weight literal)) }
{
    (LEAST_FACTOR..=HALF + BOUND).contains(&weight)
}

fn weight_ok(kind: Kind, written: u64, weight: u64, literal: u64) -> bool
    requires { (written ≤ widest.each) × (2 ≤ literal) }
    ensures { Tells result (WeightWhole (meant kind) written (entry_of weight literal)) }
{
    match kind {
        Kind::Sum | Kind::Count => added(written, weight, literal),
        Kind::Product => multiplied(weight),
        Kind::Max => near(weight, IN_MAX),
        Kind::Min => near(weight, IN_MIN),
    }
}

#[tactic(auto, using(meaning::proofs::Trails::atom_half))]
pub fn entry_ok(n: u64, head: u64, kind: Kind, written: u64, weight: u64, literal: u64) -> bool
    requires { written ≤ widest.each }
    ensures { Tells result (EntryWhole n head (meant kind) written (entry_of weight literal)) }
{
    literal >= 2
        && literal / 2 <= n
        && literal / 2 != head
        && weight_ok(kind, written, weight, literal)
}

pub fn constant_ok(kind: Kind, written: u64, constant: u64) -> bool
    requires { written ≤ widest.each }
    ensures { Tells result (ConstantOk (meant kind) written constant) }
{
    match kind {
        Kind::Sum | Kind::Count => near(constant, ADDEND * written),
        Kind::Product | Kind::Max | Kind::Min => constant == 0,
    }
}

// A product with one weight more, and None where that passes 10^18; the other kinds have no product.
pub fn grown(kind: Kind, product: u64, weight: u64) -> Option<u64>
    requires { (1 ≤ product) × (product ≤ bound_limit) × (kind ≡ Kind.Product → half < weight) }
    ensures { MatchOption result (Past (meant kind) product weight) (Grown (meant kind) product weight) }
{
    match kind {
        Kind::Product => {
            let next = product as u128 * (weight - HALF) as u128;
            if next <= BOUND as u128 {
                Some(next as u64)
            } else {
                None
            }
        }
        Kind::Sum | Kind::Count | Kind::Max | Kind::Min => Some(product),
    }
}

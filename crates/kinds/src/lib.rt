// The five kinds of aggregates. Each owns the word of its value over no weight and its range of weights, as constants.
#![tactic(auto)]

ghost use Rattle.std.specs.Prelude.{◌≡◌, ℕ, ℤ, refl};
ghost use Rattle.numbers.specs.Words.{word};
ghost use Rattle.meaning.specs.Meaning.{sum, product, count, maximum, minimum, empty, mixes};
ghost use Rattle.kinds.specs.declared.Kind.{Kind};
ghost use Rattle.kinds.specs.declared.Kind.TheVariants as kinds;
ghost use Rattle.kinds.specs.Kinds.{kind_of, meant, least_weight, greatest_weight, Decodes};

use types::{HALF, Limits};

// The kinds, to go by cases.
#[derive(Clone, Copy, Debug, PartialEq, Eq)]
pub enum Kind {
    Sum,
    Product,
    Count,
    Max,
    Min,
}

// A number that is no kind's.
#[derive(Clone, Copy, Debug, PartialEq, Eq)]
pub struct NoKind;

impl TryFrom<u64> for Kind {
    type Error = NoKind;

    ghost try_from_gives = { Decodes };

    fn try_from(number: u64) -> Result<Kind, NoKind> {
        match number {
            0 => Ok(Kind::Sum),
            1 => Ok(Kind::Product),
            2 => Ok(Kind::Count),
            3 => Ok(Kind::Max),
            4 => Ok(Kind::Min),
            _ => Err(NoKind),
        }
    }
}

impl Kind {
    // The kind of a number that was looked at before: any above the last kind's reads as the last.
    pub fn numbered(number: u64) -> Kind
        ensures { meant result ≡ kind_of number }
    {
        match number {
            0 => Kind::Sum,
            1 => Kind::Product,
            2 => Kind::Count,
            3 => Kind::Max,
            _ => Kind::Min,
        }
    }

    // The word of the value over no weight.
    pub fn empty(self) -> u64
        ensures { result ≡ word (empty (meant self)) }
    {
        match self {
            Kind::Sum => Sum::empty(),
            Kind::Product => Product::empty(),
            Kind::Count => Count::empty(),
            Kind::Max => Max::empty(),
            Kind::Min => Min::empty(),
        }
    }

    pub fn least(self) -> i64
        ensures { result ≡ least_weight (meant self) }
    {
        match self {
            Kind::Sum => Sum::least(),
            Kind::Product => Product::least(),
            Kind::Count => Count::least(),
            Kind::Max => Max::least(),
            Kind::Min => Min::least(),
        }
    }

    pub fn greatest(self) -> i64
        ensures { result ≡ greatest_weight (meant self) }
    {
        match self {
            Kind::Sum => Sum::greatest(),
            Kind::Product => Product::greatest(),
            Kind::Count => Count::greatest(),
            Kind::Max => Max::greatest(),
            Kind::Min => Min::greatest(),
        }
    }

    // Whether both signs of an atom may stand in a set.
    pub fn mixes(self) -> bool
        ensures { result ≡ mixes (meant self) }
    {
        matches!(self, Kind::Sum | Kind::Count)
    }
}

// What each kind of aggregates owns: the word of its value over no weight, and its range of weights.
pub trait Aggregate {
    ghost kind: { Kind };

    ghost EMPTY_WORD: { ℕ };

    ghost LEAST_WEIGHT: { ℤ };

    ghost GREATEST_WEIGHT: { ℤ };

    const EMPTY_WORD: u64;

    const LEAST_WEIGHT: i64;

    const GREATEST_WEIGHT: i64;

    fn empty() -> u64
        ensures { result ≡ word (empty (meant kind)) }
    {
        Self::EMPTY_WORD
    }

    fn least() -> i64
        ensures { result ≡ least_weight (meant kind) }
    {
        Self::LEAST_WEIGHT
    }

    fn greatest() -> i64
        ensures { result ≡ greatest_weight (meant kind) }
    {
        Self::GREATEST_WEIGHT
    }

    // What each impl proves of its constants.
    ghost numbers: { (EMPTY_WORD ≡ word (empty (meant kind))) × (LEAST_WEIGHT ≡ least_weight (meant kind)) × (GREATEST_WEIGHT ≡ greatest_weight (meant kind)) };
}

// The value over no weight is 0.
#[derive(Clone, Copy)]
pub struct Sum;

impl Aggregate for Sum {
    ghost kind = { kinds.Sum };

    ghost EMPTY_WORD = { word (empty sum) };

    ghost LEAST_WEIGHT = { least_weight sum };

    ghost GREATEST_WEIGHT = { greatest_weight sum };

    const EMPTY_WORD: u64 = HALF;

    const LEAST_WEIGHT: i64 = -Limits::WEIGHT;

    const GREATEST_WEIGHT: i64 = Limits::WEIGHT;

    ghost numbers = { (refl, refl, refl) };
}

// The value over no weight is 1.
#[derive(Clone, Copy)]
pub struct Product;

impl Aggregate for Product {
    ghost kind = { kinds.Product };

    ghost EMPTY_WORD = { word (empty product) };

    ghost LEAST_WEIGHT = { least_weight product };

    ghost GREATEST_WEIGHT = { greatest_weight product };

    const EMPTY_WORD: u64 = HALF + 1;

    const LEAST_WEIGHT: i64 = 1; // so that a product never falls as literals turn true

    const GREATEST_WEIGHT: i64 = Limits::WEIGHT;

    ghost numbers = { (refl, refl, refl) };
}

// The value over no weight is 0; every weight is 1.
#[derive(Clone, Copy)]
pub struct Count;

impl Aggregate for Count {
    ghost kind = { kinds.Count };

    ghost EMPTY_WORD = { word (empty count) };

    ghost LEAST_WEIGHT = { least_weight count };

    ghost GREATEST_WEIGHT = { greatest_weight count };

    const EMPTY_WORD: u64 = HALF;

    const LEAST_WEIGHT: i64 = 1;

    const GREATEST_WEIGHT: i64 = 1;

    ghost numbers = { (refl, refl, refl) };
}

// The value over no weight is below every number.
#[derive(Clone, Copy)]
pub struct Max;

impl Aggregate for Max {
    ghost kind = { kinds.Max };

    ghost EMPTY_WORD = { word (empty maximum) };

    ghost LEAST_WEIGHT = { least_weight maximum };

    ghost GREATEST_WEIGHT = { greatest_weight maximum };

    const EMPTY_WORD: u64 = 0;

    const LEAST_WEIGHT: i64 = -Limits::WEIGHT;

    const GREATEST_WEIGHT: i64 = Limits::WEIGHT;

    ghost numbers = { (refl, refl, refl) };
}

// The value over no weight is above every number.
#[derive(Clone, Copy)]
pub struct Min;

impl Aggregate for Min {
    ghost kind = { kinds.Min };

    ghost EMPTY_WORD = { word (empty minimum) };

    ghost LEAST_WEIGHT = { least_weight minimum };

    ghost GREATEST_WEIGHT = { greatest_weight minimum };

    const EMPTY_WORD: u64 = 2 * HALF;

    const LEAST_WEIGHT: i64 = -Limits::WEIGHT;

    const GREATEST_WEIGHT: i64 = Limits::WEIGHT;

    ghost numbers = { (refl, refl, refl) };
}

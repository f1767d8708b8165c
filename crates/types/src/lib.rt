// The numbers that calls speak of, each a type of its own, so that one given for another is a type error; and the limits.
#![tactic(auto)]

ghost use Rattle.std.specs.Prelude.{◌≡◌};
ghost use Rattle.types.specs.Limits.{document};
ghost use Rattle.types.specs.Counters.{start};

// The word of 0: a signed number z is the word HALF + z.
pub const HALF: u64 = 4_611_686_018_427_387_904;

// An atom, 1 to N; as a parameter of load, N itself.
#[derive(Clone, Copy, Debug, PartialEq, Eq)]
pub struct Atom(pub u64);

// A sentence, counted from 1; 0 in the answer to a load that is refused for none.
#[derive(Clone, Copy, Debug, PartialEq, Eq)]
pub struct Sentence(pub u64);

// A level of the trail.
#[derive(Clone, Copy, Debug, PartialEq, Eq)]
pub struct Level(pub u64);

// The trail's counters: its length, and the current level.
#[derive(Clone, Copy, Debug, PartialEq, Eq)]
pub struct Counters {
    pub length: u64,
    pub level: Level,
}

impl Counters {
    // After a load: no row, level 0.
    pub fn start() -> Counters
        ensures { result ≡ start }
    {
        Counters {
            length: 0,
            level: Level(0),
        }
    }
}

// The limits of a caller: atoms, sentences, written entries, written entries in one sentence, and the highest level.
#[derive(Clone, Copy, Debug, PartialEq, Eq)]
// Stays: that limits fit is a clause of functions: a law of this type would ask more of those that take any limits, and a second type beside
// it would be no plainer.
pub struct Limits {
    pub atoms: u64,
    pub sentences: u64,
    pub entries: u64,
    pub each: u64,
    pub levels: u64,
}

impl Limits {
    pub const ATOMS: u64 = 1024;

    pub const SENTENCES: u64 = 256;

    pub const ENTRIES: u64 = 4096;

    pub const EACH: u64 = 1024;

    pub const LEVELS: u64 = 1024;

    // the greatest size of a weight
    pub const WEIGHT: i64 = 1_000_000_000;

    // the greatest size of a bound, and of a product of weights
    pub const BOUND: i64 = 1_000_000_000_000_000_000;

    pub fn document() -> Limits
        ensures { result ≡ document }
    {
        Limits {
            atoms: Limits::ATOMS,
            sentences: Limits::SENTENCES,
            entries: Limits::ENTRIES,
            each: Limits::EACH,
            levels: Limits::LEVELS,
        }
    }
}

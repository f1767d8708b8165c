// A stored sentence, as one value.

ghost use Rattle.extremes.specs.Inner.Stored.{EvaluateReady, ready_prop};

use area::Sizes;

// A stored sentence that can be evaluated: the area that it lies in, and where its eight words start.
#[derive(Clone, Copy)]
pub struct Evaluable<'a> {
    pub area: &'a [u64],
    pub sizes: Sizes,
    pub base: usize,
    ghost ready: { EvaluateReady area.now sizes.atoms sizes.sentences base } by { ready_prop area.now sizes.atoms sizes.sentences base },
}

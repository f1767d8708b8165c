// Words set to 0: behind the merged entries of a sentence, and on the trail of a load.
#![tactic(auto)]

ghost use Rattle.std.specs.Prelude.{◌≤◌, length};
ghost use Rattle.blank.specs.Inner.Blank.{Blanked};

pub fn blank_words(words: &mut [u64], from: usize, to: usize)
    requires { (from ≤ to) × (to ≤ length words.old) }
    ensures { Blanked words.old words.new from to }
{
    words[from..to].fill(0);
}

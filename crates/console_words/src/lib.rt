// The words of a console's line, and the numbers that they are.
#![tactic(auto)]

ghost use Rattle.std.specs.Prelude.{◌≡◌, not, [], position, MatchOption};
ghost use Rattle.console_words.specs.Words.{blank, words};
ghost use Rattle.console_words.specs.Numbers.{unsigned_of, plus, minus, signed_of};
ghost use Rattle.console_words.specs.Inner.Split.{SplitsWord};

// ---- words

fn is_blank(b: u8) -> bool
    ensures { result ≡ blank b }
{
    b == b' ' || b == b'\t' || b == b'\r'
}

// Where the first word of a line begins.
fn word_start(line: &[u8]) -> Option<usize>
    ensures { result ≡ position (λ b. not (blank b)) line.now }
{
    line.iter().position(|b| !is_blank(*b))
}

// Where a blank ends the word that a line begins with.
fn word_end(line: &[u8]) -> Option<usize>
    ensures { result ≡ position blank line.now }
{
    line.iter().position(|b| is_blank(*b))
}

// The next word of a line, and what stands behind it.
pub fn split_word(line: &[u8]) -> Option<(&[u8], &[u8])>
    ensures { MatchOption result (words line.now ≡ []) (λ s. SplitsWord line.now s.0.now s.1.now) }
{
    let word = &line[word_start(line)?..];
    Some(word.split_at(word_end(word).unwrap_or(word.len())))
}

// ---- numbers

#[tactic(auto, using(crate::proofs::Numbers::digit_steps))]
pub fn read_unsigned(word: &[u8]) -> Option<u64>
    ensures { result ≡ unsigned_of word.now }
{
    if word.is_empty() {
        return None;
    }
    let mut n: u64 = 0;
    for b in word {
        if !b.is_ascii_digit() {
            return None;
        }
        n = n.checked_mul(10)?.checked_add(u64::from(*b - b'0'))?;
    }
    Some(n)
}

fn plus(n: u64) -> Option<i64>
    ensures { result ≡ plus n }
{
    i64::try_from(n).ok()
}

fn minus(n: u64) -> Option<i64>
    ensures { result ≡ minus n }
{
    0i64.checked_sub_unsigned(n)
}

#[tactic(auto, using(crate::proofs::Numbers::sign_steps))]
pub fn read_signed(word: &[u8]) -> Option<i64>
    ensures { result ≡ signed_of word.now }
{
    match word {
        [b'+', digits @ ..] => plus(read_unsigned(digits)?),
        [b'-', digits @ ..] => minus(read_unsigned(digits)?),
        _ => plus(read_unsigned(word)?),
    }
}

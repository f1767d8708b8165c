// The entries of a rule's line: pairs of a weight and a literal, counted, and stored in columns.
#![tactic(auto)]

ghost use Rattle.std.specs.Prelude.{◌≡◌, [], drop, set, MatchOption};
ghost use Rattle.std.proofs.lemmas.List.Edits.{sets};
ghost use Rattle.console_words.specs.Words.{words};
ghost use Rattle.console_entries.specs.Entries.{entry_count, weights_in, literals_in};
ghost use Rattle.console_entries.specs.Inner.Split.{SplitsNumber, NoNumber, SplitsEntry, NoEntry};

// The number that the next word of a line is, and what stands behind it.
fn split_number(line: &[u8]) -> Option<(i64, &[u8])>
    ensures { MatchOption result (NoNumber line.now) (λ s. SplitsNumber line.now s.0 s.1.now) }
{
    let (word, rest) = console_words::split_word(line)?;
    Some((console_words::read_signed(word)?, rest))
}

// The weight and the literal of the next entry of a line, and what stands behind them.
fn split_entry(line: &[u8]) -> Option<(i64, i64, &[u8])>
    ensures { MatchOption result (NoEntry line.now) (λ s. SplitsEntry line.now s.0 s.1 s.2.now) }
{
    let (weight, behind) = split_number(line)?;
    let (literal, rest) = split_number(behind)?;
    Some((weight, literal, rest))
}

// The number of entries that a line is; none where its words are not entries.
pub fn count_entries(line: &[u8]) -> Option<u64>
    ensures { result ≡ entry_count (words line.now) }
{
    let mut n: u64 = 0;
    let mut rest = line;
    while let Some((_, _, behind)) = split_entry(rest) {
        n += 1;
        rest = behind;
    }
    match console_words::split_word(rest) {
        Some(_) => None,
        None => Some(n),
    }
}

// What stands behind the first five words of a line.
fn behind_five(line: &[u8]) -> Option<&[u8]>
    ensures { MatchOption result (drop 5 (words line.now) ≡ []) (λ rest. words rest.now ≡ drop 5 (words line.now)) }
{
    let mut rest = line;
    for _ in 0..5usize {
        let (_, behind) = console_words::split_word(rest)?;
        rest = behind;
    }
    Some(rest)
}

// At a column's end and behind it nothing is stored.
fn store(column: &mut [i64], at: usize, x: i64)
    ensures { column.new ≡ set column.old at x }
{
    if at < column.len() {
        column[at] = x;
    }
}

// The entries of a rule's line, from a place of the columns on. Those that have no room are not stored.
pub fn read_entries(line: &[u8], weights: &mut [i64], literals: &mut [i64], at: usize)
    ensures weights_after { weights.new ≡ sets weights.old at (weights_in line.now) }
    ensures literals_after { literals.new ≡ sets literals.old at (literals_in line.now) }
{
    let Some(mut rest) = behind_five(line) else {
        return;
    };
    // Stays: by place, since each column is filled up to its own end, and `zip` stops where the shorter one ends.
    for k in at..weights.len().max(literals.len()) {
        let Some((weight, literal, behind)) = split_entry(rest) else {
            return;
        };
        store(weights, k, weight);
        store(literals, k, literal);
        rest = behind;
    }
}

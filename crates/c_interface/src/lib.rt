// What the functions for C share: one number for code and value, and what is handed back at the front of lent words.
#![tactic(auto)]

ghost use Rattle.std.specs.Prelude.{◌≡◌, ◌<◌, ◌≤◌, length as list_length};
ghost use Rattle.c_interface.specs.Inner.Numbers.{number_in, value_in, readied};
ghost use Rattle.c_interface.specs.Interface.{packed, fronted};

use calls::Refusal;

// The value in front of the code, which has the low byte.
pub fn answer(code: u64, value: u64) -> u64
    requires { (code < 256) × (value < 4294967296) }
    ensures { result ≡ packed code value }
{
    value * 256 + code
}

// Code and value of an answer: 0 with its value, or those of its refusal.
pub fn number(answered: Result<u64, Refusal>) -> u64
    requires { value_in answered < 4294967296 }
    ensures { result ≡ number_in answered }
{
    match answered {
        Ok(value) => answer(0, value),
        Err(refusal) => answer(refusal.code(), refusal.value()),
    }
}

// What was asked for or its refusal, and then 18 where the lent words are fewer than those needed.
pub fn ready<T: Copy>(asked: Result<T, Refusal>, needed: usize, room: usize) -> Result<T, Refusal>
    ensures { result ≡ readied asked needed room }
{
    let found = asked?;
    if room < needed {
        return Err(Refusal::TooShort(needed as u64));
    }
    Ok(found)
}

// At the front of lent words.
pub fn put_front<T: Copy, const N: usize>(next: &mut [T], words: [T; N])
    requires { N ≤ list_length next.old }
    ensures { next.new ≡ fronted words next.old }
{
    next[..N].copy_from_slice(&words);
}

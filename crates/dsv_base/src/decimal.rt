ghost use Rattle.std.specs.Prelude.{◌≡◌, ◌*◌, ◌+◌, ◌-◌, ◌<◌, ◌≤◌, ◌^◌, ◌++◌, ℕ, IsTrue, IfOk, IfSome, OnOk, List, if◌then◌else◌, Some, None, nat_le, true};
ghost use Rattle.std.specs.Fmt.{decimal};
ghost use Rattle.dsv_base.specs.Numbers.{read_decimal, is_decimal, is_digit, digits_after};
ghost use Rattle.std.specs.List.{list_all};

use crate::bytes::Bytes;
use crate::no_memory::NoMemory;
use std::alloc::Global;

/// The number in decimal, without leading zeros. Its one error is want of memory.
#[tactic(auto, using(crate::proofs::Decimals::read_back))]
pub fn decimal_text(alloc: Global, number: u64) -> Result<Bytes, NoMemory>
    ensures value { IfOk result (λ text. text ≡ decimal number) }
    ensures read { (most : ℕ) → number ≤ most → read_decimal most (decimal number) ≡ Some number }
{
    let text = format!(in alloc; "{number}")?;
    Ok(Bytes::from_vec(text.into_bytes()))
}

/// Adds the number in decimal, without leading zeros. Its one error is want of memory, and then nothing
/// was added.
pub fn push_decimal(out: &mut Vec<u8>, number: u64) -> Result<(), NoMemory>
    ensures { OnOk result (out.new.items ≡ out.old.items ++ decimal number) }
{
    let text = format!(in *out.allocator(); "{number}")?;
    out.extend_from_slice(text.as_bytes())?;
    Ok(())
}

/// The number that `text` spells in decimal, without a sign and without leading zeros; `None`
/// where it spells none, or one above `most`.
#[tactic(auto, unfolding(crate::specs::Numbers::read_decimal))]
pub fn read_decimal(text: &[u8], most: u64) -> Option<u64>
    ensures value { result ≡ read_decimal most text.now }
    ensures bound { IfSome result (λ n. n ≤ most) }
{
    if !is_decimal_text(text) {
        return None;
    }
    read_digits(text, most)
}

/// The number of the digits, which may have zeros in front, where it is at most `most`.
pub fn read_digits(text: &[u8], most: u64) -> Option<u64>
    requires { list_all is_digit text.now ≡ true }
    ensures bound { IfSome result (λ n. n ≤ most) }
    ensures value { result ≡ (if nat_le (digits_after 0 text.now) most
        then Some (digits_after 0 text.now) else None) }
{
    let mut number = 0u64;
    let mut rest = text;
    'digits: while let [digit, after @ ..] = rest {
        match one_more(number, *digit, most) {
            Some(next) => number = next,
            None => return None,
        }
        rest = after;
    }
    Some(number)
}

/// The number with one more digit, where that is at most `most`.
fn one_more(number: u64, digit: u8, most: u64) -> Option<u64>
    requires { IsTrue (is_digit digit) }
    ensures bound { IfSome result (λ n. n ≤ most) }
    ensures value { result ≡ (if nat_le (number * 10 + (digit - 48)) most
        then Some (number * 10 + (digit - 48)) else None) }
{
    number
        .checked_mul(10)?
        .checked_add(u64::from(digit - b'0'))
        .filter(|next| *next <= most)
}

/// Whether it is one digit, or several of which the first isn't 0.
fn is_decimal_text(text: &[u8]) -> bool
    ensures { result ≡ is_decimal text.now }
{
    match text {
        [] => false,
        [_] => are_digits(text),
        [b'0', ..] => false,
        _ => are_digits(text),
    }
}

fn are_digits(text: &[u8]) -> bool
    ensures { result ≡ list_all is_digit text.now }
{
    text.iter().all(|b| *b >= b'0' && *b <= b'9')
}

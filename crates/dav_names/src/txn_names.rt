ghost use Rattle.std.specs.Prelude.{◌≡◌};
ghost use Rattle.dav_names.specs.Targets.{rev_named, txn_of, txn_named};

use dsv_base::{Rev, TxnName, cut_at, read_decimal};

/// The revision whose number the text is.
pub fn rev_named(text: &[u8]) -> Option<Rev>
    ensures { result ≡ rev_named text.now }
{
    match read_decimal(text, u64::from(Rev::MOST)) {
        None => None,
        Some(number) => Rev::of(number as u32),
    }
}

/// The transaction whose name the text is: REV, `-`, and its number, which isn't 0.
#[tactic(auto, unfolding(crate::specs::Targets::txn_named))]
pub fn txn_named(text: &[u8]) -> Option<TxnName>
    ensures { result ≡ txn_named text.now }
{
    let (base, number) = cut_at(text, b'-')?;
    let base = rev_named(base)?;
    let number = read_decimal(number, u64::from(u32::MAX))?;
    txn_of(base, number as u32)
}

fn txn_of(base: Rev, number: u32) -> Option<TxnName>
    ensures { result ≡ txn_of base number }
{
    if number == 0 {
        return None;
    }
    Some(TxnName { base, number })
}

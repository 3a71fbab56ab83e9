ghost use Rattle.std.specs.Prelude.{◌≡◌, ◌++◌, IfOk, OnOk, codes};
ghost use Rattle.hex.specs.Hex.{encode_lower};
ghost use Rattle.std.specs.Fmt.{decimal};
ghost use Rattle.dav_replies.specs.Refusals.{text_of, after_name, detail_of, sums_text};

use crate::refusal::Refusal;
use crate::tables::{form_name, row_of};
use dsv_base::{NoMemory, Rev, push_decimal};
use std::alloc::Global;

/// The text for the reader: the refusal's name and what it tells beside that.
pub(crate) fn text_of(alloc: Global, refusal: &Refusal) -> Result<Vec<u8>, NoMemory>
    ensures { IfOk result (λ text. text.items ≡ text_of refusal.now) }
{
    let mut text = Vec::from_slice(alloc, row_of(refusal).name)?;
    put_detail(alloc, &mut text, refusal)?;
    Ok(text)
}

fn put_detail(alloc: Global, out: &mut Vec<u8>, refusal: &Refusal) -> Result<(), NoMemory>
    ensures { OnOk result (out.new.items ≡ out.old.items ++ after_name (detail_of refusal.now)) }
{
    match refusal {
        Refusal::NoRevision { rev } => put_number(out, *rev),
        Refusal::OutOfDate { created } => put_number(out, *created),
        Refusal::Conflict { path } => put_text(out, path.text()),
        Refusal::Locked { path } => put_text(out, path.text()),
        Refusal::NotInProfile { form } => put_text(out, form_name(*form)),
        Refusal::WrongText { told, got } => put_sums(alloc, out, told, got),
        _ => Ok(()),
    }
}

fn put_text(out: &mut Vec<u8>, detail: &[u8]) -> Result<(), NoMemory>
    ensures { OnOk result (out.new.items ≡ out.old.items ++ codes ": " ++ detail.now) }
{
    out.extend_from_slice(b": ")?;
    out.extend_from_slice(detail)?;
    Ok(())
}

fn put_number(out: &mut Vec<u8>, rev: Rev) -> Result<(), NoMemory>
    ensures { OnOk result (out.new.items ≡ out.old.items ++ codes ": " ++ decimal rev) }
{
    out.extend_from_slice(b": ")?;
    push_decimal(out, u64::from(rev.get()))
}

/// Two MD5 sums in hexadecimal: the one that was told, and that of the text.
fn put_sums(
    alloc: Global,
    out: &mut Vec<u8>,
    told: &[u8; 16],
    got: &[u8; 16],
) -> Result<(), NoMemory>
    ensures { OnOk result (out.new.items ≡ out.old.items ++ codes ": " ++ sums_text told.now got.now) }
{
    out.extend_from_slice(b": told ")?;
    put_hex(alloc, out, told)?;
    out.extend_from_slice(b", got ")?;
    put_hex(alloc, out, got)
}

fn put_hex(alloc: Global, out: &mut Vec<u8>, sum: &[u8; 16]) -> Result<(), NoMemory>
    ensures { OnOk result (out.new.items ≡ out.old.items ++ encode_lower sum.now) }
{
    let text = hex::encode(alloc, sum.as_slice())?;
    out.extend_from_slice(text.as_bytes())?;
    Ok(())
}

ghost use Rattle.std.specs.Prelude.{◌≡◌, IfOk, OnOk};
ghost use Rattle.dav_documents.specs.Drafts.{with_elements};
ghost use Rattle.dav_replies.specs.Refusals.{error_text, error_tree, condition_of, human_readable};

use crate::client::Client;
use crate::detail::text_of;
use crate::refusal::Refusal;
use crate::tables::code_for;
use dav_documents::{Namespace, Writer};
use dsv_base::{Bytes, NoMemory, decimal_text};
use std::alloc::Global;

/// The document that tells a refusal.
#[tactic(auto, unfolding(crate::specs::Refusals::error_text))]
pub(crate) fn error_body(
    alloc: Global,
    client: Client,
    refusal: &Refusal,
) -> Result<Bytes, NoMemory>
    ensures { IfOk result (λ body. body ≡ error_text client refusal.now) }
{
    let mut out = Writer::body(alloc)?;
    put_error(alloc, &mut out, client, refusal)?;
    out.finish()
}

#[tactic(auto, using(dav_documents::proofs::Trees::with_elements_joined))]
fn put_error(
    alloc: Global,
    out: &mut Writer,
    client: Client,
    refusal: &Refusal,
) -> Result<(), NoMemory>
    ensures { OnOk result (out.new ≡ with_elements (error_tree client refusal.now) out.old) }
{
    out.start(b"D:error")?;
    out.bind(b"D", Namespace::Dav.uri())?;
    out.bind(b"m", Namespace::ApacheDav.uri())?;
    put_condition(out, refusal)?;
    put_human_readable(alloc, out, client, refusal)?;
    out.end(b"D:error")?;
    Ok(())
}

fn put_condition(out: &mut Writer, refusal: &Refusal) -> Result<(), NoMemory>
    ensures { OnOk result (out.new ≡ with_elements (condition_of refusal.now) out.old) }
{
    if let Refusal::InfiniteDepth = refusal {
        out.empty(b"D:propfind-finite-depth")?;
    }
    Ok(())
}

fn put_human_readable(
    alloc: Global,
    out: &mut Writer,
    client: Client,
    refusal: &Refusal,
) -> Result<(), NoMemory>
    ensures { OnOk result (out.new ≡ with_elements (human_readable client refusal.now) out.old) }
{
    let code = decimal_text(alloc, u64::from(code_for(client, refusal)))?;
    let text = text_of(alloc, refusal)?;
    out.start(b"m:human-readable")?;
    out.attribute(b"errcode", code.get())?;
    out.text(text.as_slice())?;
    out.end(b"m:human-readable")
}

ghost use Rattle.std.specs.Prelude.{◌≡◌, ◌++◌, ◌∷◌, IfOk, OnOk, []};
ghost use Rattle.dav_documents.specs.Drafts.{with_elements};
ghost use Rattle.dav_replies.specs.Replies.{IsWritable};
ghost use Rattle.dav_machine.specs.Options.{options_reply, options_by, options_head, options_with_document};
ghost use Rattle.dav_machine.specs.Options.{options_document, options_tree, options_fields, server_fields};
ghost use Rattle.dav_machine.specs.Options.{root_fields, rev_fields, txn_fields, stub_field};

use crate::replies::put_field;
use dav_documents::{Namespace, Writer};
use dav_replies::{AllowKind, Client, allow_list};
use dsv_base::{Bytes, Field, List, NoMemory, Reply, Rev};
use std::alloc::Global;

/// What the server can do, and what a client has to know of the repository that is reached at `root`
/// (RFC 9110, section 9.3.7; Subversion notes, "HTTP protocol v2"). Subversion's clients read a
/// document from it. Its one error is want of memory.
#[tactic(auto, unfolding(crate::specs::Options::options_reply))]
pub fn options_reply(
    alloc: Global,
    client: Client,
    root: &[u8],
    uuid: &[u8],
    youngest: Rev,
) -> Result<Reply, NoMemory>
    ensures value { IfOk result (λ reply. reply ≡ options_reply client root.now uuid.now youngest) }
    ensures writable { IfOk result IsWritable }
{
    let mut fields = Vec::new(alloc);
    put_options(alloc, &mut fields, root, uuid, youngest)?;
    match client {
        Client::Plain => Ok(options_head(alloc, fields)),
        Client::Guest => options_with_document(alloc, fields),
    }
}

/// The reply with these fields alone.
fn options_head(alloc: Global, fields: Vec<Field>) -> Reply
    ensures value { result ≡ options_head fields.items }
    ensures writable { IsWritable result }
{
    Reply {
        status: 200,
        fields: List::of(fields),
        content: Bytes::from_vec(Vec::new(alloc)),
        has_content: false,
    }
}

/// The reply with these fields, and with a document in which nothing is told.
fn options_with_document(alloc: Global, mut fields: Vec<Field>) -> Result<Reply, NoMemory>
    ensures value { IfOk result (λ reply. reply ≡ options_with_document fields.items) }
    ensures writable { IfOk result IsWritable }
{
    put_field(&mut fields, b"Content-Type", b"text/xml; charset=\"utf-8\"")?;
    let content = options_document(alloc)?;
    Ok(Reply {
        status: 200,
        fields: List::of(fields),
        content,
        has_content: true,
    })
}

#[tactic(auto, unfolding(crate::specs::Options::options_document))]
fn options_document(alloc: Global) -> Result<Bytes, NoMemory>
    ensures { IfOk result (λ document. document ≡ options_document) }
{
    let mut out = Writer::body(alloc)?;
    put_response(&mut out)?;
    out.finish()
}

fn put_response(out: &mut Writer) -> Result<(), NoMemory>
    ensures { OnOk result (out.new ≡ with_elements options_tree out.old) }
{
    out.start(b"D:options-response")?;
    out.bind(b"D", Namespace::Dav.uri())?;
    out.end(b"D:options-response")
}

fn put_options(
    alloc: Global,
    fields: &mut Vec<Field>,
    root: &[u8],
    uuid: &[u8],
    youngest: Rev,
) -> Result<(), NoMemory>
    ensures { OnOk result (fields.new.items ≡ fields.old.items ++ options_fields root.now uuid.now youngest) }
{
    put_server(alloc, fields, uuid, youngest)?;
    put_root(fields, root)?;
    put_revs(fields, root)?;
    put_txns(fields, root)
}

#[tactic(auto, unfolding(crate::specs::Options::server_fields))]
fn put_server(
    alloc: Global,
    fields: &mut Vec<Field>,
    uuid: &[u8],
    youngest: Rev,
) -> Result<(), NoMemory>
    ensures { OnOk result (fields.new.items ≡ fields.old.items ++ server_fields uuid.now youngest) }
{
    let number = youngest.get();
    let youngest = format!(in alloc; "{number}")?;
    put_field(fields, b"DAV", b"1,2")?;
    put_field(fields, b"Allow", allow_list(AllowKind::Public))?;
    put_field(fields, b"SVN-Youngest-Rev", youngest.as_bytes())?;
    put_field(fields, b"SVN-Repository-UUID", uuid)
}

#[tactic(auto, unfolding(crate::specs::Options::root_fields))]
fn put_root(fields: &mut Vec<Field>, root: &[u8]) -> Result<(), NoMemory>
    ensures { OnOk result (fields.new.items ≡ fields.old.items ++ root_fields root.now) }
{
    put_stub(fields, root, b"SVN-Repository-Root", b"")?;
    put_stub(fields, root, b"SVN-Me-Resource", b"/!svn/me")
}

#[tactic(auto, unfolding(crate::specs::Options::rev_fields))]
fn put_revs(fields: &mut Vec<Field>, root: &[u8]) -> Result<(), NoMemory>
    ensures { OnOk result (fields.new.items ≡ fields.old.items ++ rev_fields root.now) }
{
    put_stub(fields, root, b"SVN-Rev-Root-Stub", b"/!svn/rvr")?;
    put_stub(fields, root, b"SVN-Rev-Stub", b"/!svn/rev")
}

#[tactic(auto, unfolding(crate::specs::Options::txn_fields))]
fn put_txns(fields: &mut Vec<Field>, root: &[u8]) -> Result<(), NoMemory>
    ensures { OnOk result (fields.new.items ≡ fields.old.items ++ txn_fields root.now) }
{
    put_stub(fields, root, b"SVN-Txn-Root-Stub", b"/!svn/txr")?;
    put_stub(fields, root, b"SVN-Txn-Stub", b"/!svn/txn")
}

fn put_stub(fields: &mut Vec<Field>, root: &[u8], name: &[u8], stub: &[u8]) -> Result<(), NoMemory>
    ensures { OnOk result (fields.new.items ≡ fields.old.items ++ stub_field root.now name.now stub.now ∷ []) }
{
    let alloc = *fields.allocator();
    let mut value = Vec::from_slice(alloc, root)?;
    value.extend_from_slice(stub)?;
    fields.push(Field {
        name: Bytes::of(alloc, name)?,
        value: Bytes::from_vec(value),
    })?;
    Ok(())
}

ghost use Rattle.std.specs.Prelude.{◌≡◌, ◌<◌, All, ◌++◌, IfOk, OnOk, IsTrue, Some, true, codes};
ghost use Rattle.std.specs.Str.{bytes_eq};
ghost use Rattle.dsv_base.specs.Names.{is_repository_name};
ghost use Rattle.dsv_base.specs.Paths.{root_text};
ghost use Rattle.dav_names.specs.Targets.{root_of, target};
ghost use Rattle.dav_names.specs.Written.{txn_text, path_end, resource_text, target_text, is_root, is_numbered, IsInRange, IsName, IsPathOfBytes};

use crate::resource::Resource;
use dsv_base::{Bytes, NoMemory, Path, Rev, TxnName, push_decimal, url_text};
use std::alloc::Global;

/// The root of the repository with this name: `/svn/NAME`. Its one error is want of memory.
#[tactic(auto, unfolding(crate::specs::Targets::root_of))]
pub fn root_of(alloc: Global, name: &[u8]) -> Result<Bytes, NoMemory>
    ensures value { IfOk result (λ root. root ≡ root_of name.now) }
    ensures root { IsTrue (is_repository_name name.now) → IfOk result (λ root. IsTrue (is_root root)) }
{
    let mut root = Vec::from_slice(alloc, b"/svn/")?;
    root.extend_from_slice(name)?;
    Ok(Bytes::from_vec(root))
}

/// The target of the resource in the repository with this root: bytes of the path other than
/// letters, digits, `-`, `.`, `_`, `~` and `/` are escaped, and there is no `/` at the end. Its one
/// error is want of memory.
///
/// It is read back as the resource, unless that names a transaction of number 0: see
/// [`read_target`](crate::read_target).
#[tactic(auto, unfolding(crate::specs::Written::target_text))]
pub fn write_target(alloc: Global, root: &[u8], resource: &Resource) -> Result<Bytes, NoMemory>
    ensures value { IfOk result (λ bytes. bytes ≡ target_text root.now resource.now) }
    ensures read { IsTrue (is_root root.now) → IsTrue (is_numbered resource.now)
        → IfOk result (λ bytes. target root.now bytes ≡ Some resource.now) }
{
    let mut out = Vec::from_slice(alloc, root)?;
    put_resource(alloc, &mut out, resource)?;
    Ok(Bytes::from_vec(out))
}

#[tactic(auto, unfolding(crate::specs::Written::resource_text))]
fn put_resource(alloc: Global, out: &mut Vec<u8>, resource: &Resource) -> Result<(), NoMemory>
    ensures value { OnOk result (out.new.items ≡ out.old.items ++ resource_text resource.now) }
    ensures range { OnOk result (IsInRange resource.now) }
{
    match resource {
        Resource::Public(path) => put_path(alloc, out, path)?,
        Resource::Me => out.extend_from_slice(b"/!svn/me")?,
        Resource::Rvr(rev, path) => {
            out.extend_from_slice(b"/!svn/rvr/")?;
            push_decimal(out, u64::from(rev.get()))?;
            put_path(alloc, out, path)?;
        }
        Resource::RevOnly(rev) => {
            out.extend_from_slice(b"/!svn/rev/")?;
            push_decimal(out, u64::from(rev.get()))?;
        }
        Resource::Txr(name, path) => {
            out.extend_from_slice(b"/!svn/txr/")?;
            put_name(out, name)?;
            put_path(alloc, out, path)?;
        }
        Resource::Txn(name) => {
            out.extend_from_slice(b"/!svn/txn/")?;
            put_name(out, name)?;
        }
    }
    Ok(())
}

/// The name of a transaction: the number of its revision, `-`, and its own.
fn put_name(out: &mut Vec<u8>, name: &TxnName) -> Result<(), NoMemory>
    ensures value { OnOk result (out.new.items ≡ out.old.items ++ txn_text name.now) }
    ensures range { OnOk result (IsName name.now) }
{
    push_decimal(out, u64::from(name.base.get()))?;
    out.push(b'-')?;
    push_decimal(out, u64::from(name.number))
}

/// A path behind the root or a stub: nothing for `/`.
#[tactic(auto, unfolding(dsv_base::specs::Escapes::url_text))]
fn put_path(alloc: Global, out: &mut Vec<u8>, path: &Path) -> Result<(), NoMemory>
    ensures value { OnOk result (out.new.items ≡ out.old.items ++ path_end path.now) }
    ensures range { OnOk result (IsPathOfBytes path.now) }
{
    if is_slash_alone(path.text()) {
        return Ok(());
    }
    let text = url_text(alloc, path)?;
    out.extend_from_slice(text.get())?;
    Ok(())
}

/// Whether the text is `/`. It also says that a text is made of bytes.
fn is_slash_alone(text: &[u8]) -> bool
    ensures value { result ≡ bytes_eq text.now root_text }
    ensures bytes { All (λ b. b < 256) text.now }
{
    match text {
        [byte] => *byte == b'/',
        _ => false,
    }
}

ghost use Rattle.std.specs.Prelude.{◌≡◌, ◌++◌, IfOk, OnOk, codes, length};
ghost use Rattle.std.specs.List.{flat_map};
ghost use Rattle.std.specs.Fmt.{decimal};
ghost use Rattle.rev_scripts.specs.Written.{one_number, two_numbers, three_numbers, prop_text, change_text, head_text, revision_text, IsTellable, ReadsBack, Extends};

use dsv_base::{Bytes, NoMemory, Prop, Rev};
use rev_nodes::{Change, Commit};
use std::alloc::Global;

/// The revision of this number as a script has it (docs/FORMATS.md). Its one error is want of
/// memory.
///
/// A commit that a script may have is read back from it. After a script whose repository has as
/// many revisions as `number` says, it makes a script of that repository with the commit pushed.
#[tactic(auto, unfolding(crate::specs::Written::revision_text))]
pub fn write_revision(alloc: Global, number: Rev, commit: &Commit) -> Result<Bytes, NoMemory>
    ensures text { IfOk result (λ text. text ≡ revision_text number commit.now) }
    ensures reads_back { IfOk result (λ text. IsTellable number commit.now → ReadsBack number commit.now text) }
    ensures extends { IfOk result (λ text. IsTellable number commit.now → Extends number commit.now text) }
{
    let mut out = Vec::new(alloc);
    put_head(alloc, &mut out, number, commit)?;
    put_props(alloc, &mut out, commit.props.get())?;
    put_changes(alloc, &mut out, commit.changes.get())?;
    out.extend_from_slice(b"end\n")?;
    Ok(Bytes::from_vec(out))
}

/// The line of a revision, and its author.
fn put_head(alloc: Global, out: &mut Vec<u8>, number: Rev, commit: &Commit) -> Result<(), NoMemory>
    ensures { OnOk result (out.new.items ≡ out.old.items ++ head_text number commit.now) }
{
    let author = commit.author.get();
    let number = u64::from(number.get());
    let moment = commit.moment.get();
    put_three_numbers(alloc, out, b"revision", number, moment, author.len() as u64)?;
    out.extend_from_slice(author)?;
    out.extend_from_slice(b"\n")?;
    Ok(())
}

fn put_props(alloc: Global, out: &mut Vec<u8>, props: &[Prop]) -> Result<(), NoMemory>
    ensures { OnOk result (out.new.items ≡ out.old.items ++ flat_map prop_text props.now) }
{
    'props: for prop in props {
        put_prop(alloc, out, prop)?;
    }
    Ok(())
}

fn put_prop(alloc: Global, out: &mut Vec<u8>, prop: &Prop) -> Result<(), NoMemory>
    ensures { OnOk result (out.new.items ≡ out.old.items ++ prop_text prop.now) }
{
    let (name, value) = (prop.name.get(), prop.value.get());
    put_two_numbers(alloc, out, b"prop", name.len() as u64, value.len() as u64)?;
    out.extend_from_slice(name)?;
    out.extend_from_slice(value)?;
    out.extend_from_slice(b"\n")?;
    Ok(())
}

fn put_changes(alloc: Global, out: &mut Vec<u8>, changes: &[Change]) -> Result<(), NoMemory>
    ensures { OnOk result (out.new.items ≡ out.old.items ++ flat_map change_text changes.now) }
{
    'changes: for change in changes {
        put_change(alloc, out, change)?;
    }
    Ok(())
}

fn put_change(alloc: Global, out: &mut Vec<u8>, change: &Change) -> Result<(), NoMemory>
    ensures { OnOk result (out.new.items ≡ out.old.items ++ change_text change.now) }
{
    match change {
        Change::Put { path, text } => put_two(alloc, out, b"put", path.text(), text.get()),
        Change::SetProp { path, name, value } => {
            put_three(alloc, out, path.text(), name.get(), value.get())
        }
        Change::DelProp { path, name } => {
            put_two(alloc, out, b"delprop", path.text(), name.get())
        }
        Change::Mkdir { path } => put_one(alloc, out, b"mkdir", path.text()),
        Change::Delete { path } => put_one(alloc, out, b"delete", path.text()),
        Change::Copy {
            source,
            source_rev,
            path,
        } => put_copy(alloc, out, source.text(), *source_rev, path.text()),
    }
}

/// An item of one part.
fn put_one(alloc: Global, out: &mut Vec<u8>, word: &[u8], one: &[u8]) -> Result<(), NoMemory>
    ensures { OnOk result (out.new.items
        ≡ out.old.items ++ one_number word.now (length one.now) ++ one.now ++ codes "\n") }
{
    put_one_number(alloc, out, word, one.len() as u64)?;
    out.extend_from_slice(one)?;
    out.extend_from_slice(b"\n")?;
    Ok(())
}

/// An item of two parts.
fn put_two(
    alloc: Global,
    out: &mut Vec<u8>,
    word: &[u8],
    one: &[u8],
    two: &[u8],
) -> Result<(), NoMemory>
    ensures { OnOk result (out.new.items
        ≡ out.old.items ++ two_numbers word.now (length one.now) (length two.now)
        ++ one.now ++ two.now ++ codes "\n") }
{
    put_two_numbers(alloc, out, word, one.len() as u64, two.len() as u64)?;
    out.extend_from_slice(one)?;
    out.extend_from_slice(two)?;
    out.extend_from_slice(b"\n")?;
    Ok(())
}

/// A property of a node that is set.
fn put_three(
    alloc: Global,
    out: &mut Vec<u8>,
    path: &[u8],
    name: &[u8],
    value: &[u8],
) -> Result<(), NoMemory>
    ensures { OnOk result (out.new.items
        ≡ out.old.items ++ three_numbers (codes "setprop") (length path.now) (length name.now) (length value.now)
        ++ path.now ++ name.now ++ value.now ++ codes "\n") }
{
    let (one, two, three) = (path.len() as u64, name.len() as u64, value.len() as u64);
    put_three_numbers(alloc, out, b"setprop", one, two, three)?;
    out.extend_from_slice(path)?;
    out.extend_from_slice(name)?;
    out.extend_from_slice(value)?;
    out.extend_from_slice(b"\n")?;
    Ok(())
}

fn put_copy(
    alloc: Global,
    out: &mut Vec<u8>,
    source: &[u8],
    rev: Rev,
    path: &[u8],
) -> Result<(), NoMemory>
    ensures { OnOk result (out.new.items
        ≡ out.old.items ++ three_numbers (codes "copy") (length source.now) rev (length path.now)
        ++ source.now ++ path.now ++ codes "\n") }
{
    let (one, two, three) = (source.len() as u64, u64::from(rev.get()), path.len() as u64);
    put_three_numbers(alloc, out, b"copy", one, two, three)?;
    out.extend_from_slice(source)?;
    out.extend_from_slice(path)?;
    out.extend_from_slice(b"\n")?;
    Ok(())
}

/// A line of a word and a number.
fn put_one_number(alloc: Global, out: &mut Vec<u8>, word: &[u8], one: u64) -> Result<(), NoMemory>
    ensures { OnOk result (out.new.items ≡ out.old.items ++ one_number word.now one) }
{
    let numbers = format!(in alloc; " {one}\n")?;
    out.extend_from_slice(word)?;
    out.extend_from_slice(numbers.as_bytes())?;
    Ok(())
}

fn put_two_numbers(
    alloc: Global,
    out: &mut Vec<u8>,
    word: &[u8],
    one: u64,
    two: u64,
) -> Result<(), NoMemory>
    ensures { OnOk result (out.new.items ≡ out.old.items ++ two_numbers word.now one two) }
{
    let numbers = format!(in alloc; " {one} {two}\n")?;
    out.extend_from_slice(word)?;
    out.extend_from_slice(numbers.as_bytes())?;
    Ok(())
}

fn put_three_numbers(
    alloc: Global,
    out: &mut Vec<u8>,
    word: &[u8],
    one: u64,
    two: u64,
    three: u64,
) -> Result<(), NoMemory>
    ensures { OnOk result (out.new.items ≡ out.old.items ++ three_numbers word.now one two three) }
{
    let numbers = format!(in alloc; " {one} {two} {three}\n")?;
    out.extend_from_slice(word)?;
    out.extend_from_slice(numbers.as_bytes())?;
    Ok(())
}

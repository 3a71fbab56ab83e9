ghost use Rattle.std.specs.Prelude.{◌≡◌, ◌∷◌, ◌++◌, IfOk};
ghost use Rattle.std.specs.Option.{option_copied};
ghost use Rattle.rev_nodes.specs.Changes.{with_prop, without_prop};
ghost use Rattle.tree_edits.specs.PropChanges.{changed_props};

use dsv_base::{Bytes, NoMemory, Prop};
use rev_nodes::Shared;
use std::alloc::Global;
use std::cmp::Ordering;

fn copy_prop(prop: &Prop) -> Result<Prop, NoMemory>
    ensures { IfOk result (λ copy. copy ≡ prop.now) }
{
    let name = prop.name.copy()?;
    let value = prop.value.copy()?;
    Ok(Prop { name, value })
}

/// The properties after one was set to a value, or removed where there is none.
pub fn changed_props(
    alloc: Global,
    props: &[Prop],
    name: &Bytes,
    value: Option<&Bytes>,
) -> Result<Shared<Prop>, NoMemory>
    ensures { IfOk result (λ new. new ≡ changed_props name.now (option_copied value.entry) props.now) }
{
    match value {
        Some(value) => with_prop(alloc, props, name, value),
        None => without_prop(alloc, props, name),
    }
}

/// The properties with this one, in byte order of the name.
fn with_prop(
    alloc: Global,
    props: &[Prop],
    name: &Bytes,
    value: &Bytes,
) -> Result<Shared<Prop>, NoMemory>
    ensures { IfOk result (λ new. new ≡ with_prop (record { name = name.now; value = value.now }) props.now) }
{
    let mut new = Vec::with_capacity(alloc, props.len())?;
    let mut rest = props;
    'front: while let [first, after @ ..] = rest {
        match name.get().cmp(first.name.get()) {
            Ordering::Less => return closed(new, name, value, rest),
            Ordering::Equal => return closed(new, name, value, after),
            Ordering::Greater => {
                new.push(copy_prop(first)?)?;
                rest = after;
            }
        }
    }
    closed(new, name, value, rest)
}

/// The properties so far, then this one, then the rest.
fn closed(
    before: Vec<Prop>,
    name: &Bytes,
    value: &Bytes,
    rest: &[Prop],
) -> Result<Shared<Prop>, NoMemory>
    ensures { IfOk result (λ new. new ≡ before.items ++ record { name = name.now; value = value.now } ∷ rest.now) }
{
    let mut new = before;
    new.push(Prop {
        name: name.copy()?,
        value: value.copy()?,
    })?;
    'rest: for prop in rest {
        new.push(copy_prop(prop)?)?;
    }
    Shared::of(new)
}

/// The properties without this one.
fn without_prop(alloc: Global, props: &[Prop], name: &Bytes) -> Result<Shared<Prop>, NoMemory>
    ensures { IfOk result (λ new. new ≡ without_prop name.now props.now) }
{
    let mut new = Vec::with_capacity(alloc, props.len())?;
    'props: for prop in props {
        if prop.name.get() != name.get() {
            new.push(copy_prop(prop)?)?;
        }
    }
    Shared::of(new)
}

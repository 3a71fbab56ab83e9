ghost use Rattle.std.specs.Prelude.{◌≡◌, ◌++◌, ◌∷◌, IfOk, OnOk, Some, map, codes};
ghost use Rattle.std.specs.FinMap.{put};
ghost use Rattle.std.specs.List.{find};
ghost use Rattle.std.specs.Option.{option_map, option_copied};
ghost use Rattle.std.specs.Ordering.{nat_cmp};
ghost use Rattle.std.specs.Cmp.Lexicographic.{slice_cmp};
ghost use Rattle.dsv_dates.specs.Dates.{iso_text};
ghost use Rattle.prop_values.specs.PropTags.{same_name, dead_name};
ghost use Rattle.prop_values.specs.Contents.{value_content};
ghost use Rattle.prop_values.specs.DeadValues.{named_values, with_shown, revision_values, dead_values};

use crate::names::is_dead_name;
use crate::subject::Subject;
use crate::told::Told;
use dsv_base::{NoMemory, Prop, PropName};
use std::alloc::Global;
use std::cmp::Ordering;
use std::marker::Model;

/// A property that users set, by its own name and its value. Contracts see these two.
#[derive(Debug, Drop)]
pub(crate) struct Named<'a> {
    pub(crate) name: &'a [u8],
    pub(crate) value: &'a [u8],
}

impl<'a> Model for Named<'a> {
    ghost use Rattle.std.specs.Prelude.{List, ℕ};

    ghost Value = { List ℕ × List ℕ };

    ghost view = { λ n. (n.name.now, n.value.now) };
}

/// The properties of a node or a revision that users set, in byte order of their names; `date` is the
/// text of the moment that is told. Its one error is want of memory.
#[tactic(auto, unfolding(crate::specs::DeadValues::dead_values))]
pub(crate) fn dead_values<'a>(
    alloc: Global,
    told: &'a Told<'a>,
    date: Option<&'a [u8]>,
    subject: &'a Subject<'a>,
) -> Result<Vec<Named<'a>>, NoMemory>
    requires { option_copied date ≡ option_map iso_text told.now.moment }
    ensures { IfOk result (λ values. values.items ≡ dead_values told.now subject.now) }
{
    match subject {
        Subject::YoungestNode(place) => named_values(alloc, place.node.props.get()),
        Subject::RevisionNode(place) => named_values(alloc, place.node.props.get()),
        Subject::WholeRevision(_rev) => revision_values(alloc, told, date),
    }
}

/// The properties of a revision, its author and its date among them where they are shown.
fn revision_values<'a>(
    alloc: Global,
    told: &'a Told<'a>,
    date: Option<&'a [u8]>,
) -> Result<Vec<Named<'a>>, NoMemory>
    requires { option_copied date ≡ option_map iso_text told.now.moment }
    ensures { IfOk result (λ values. values.items ≡ revision_values told.now) }
{
    let own = named_values(alloc, told.props)?;
    let dated = with_shown(alloc, own, b"svn:date", date)?;
    with_shown(alloc, dated, b"svn:author", told.author)
}

/// Properties by name and value.
fn named_values<'a>(alloc: Global, props: &'a [Prop]) -> Result<Vec<Named<'a>>, NoMemory>
    ensures { IfOk result (λ values. values.items ≡ named_values props.now) }
{
    let mut values = Vec::new(alloc);
    'props: for prop in props {
        values.push(name_and_value(prop))?;
    }
    Ok(values)
}

fn name_and_value<'a>(prop: &'a Prop) -> Named<'a>
    ensures { result ≡ (prop.now.name, prop.now.value) }
{
    Named {
        name: prop.name.get(),
        value: prop.value.get(),
    }
}

/// One value more at its name's place, where there is a value.
fn with_shown<'a>(
    alloc: Global,
    values: Vec<Named<'a>>,
    name: &'a [u8],
    value: Option<&'a [u8]>,
) -> Result<Vec<Named<'a>>, NoMemory>
    ensures { IfOk result
        (λ all. all.items ≡ with_shown name.now (option_copied value.entry) values.entry.items) }
{
    match value {
        None => Ok(values),
        Some(value) => with_value(alloc, values.as_slice(), name, value),
    }
}

/// One value more at its name's place in byte order.
fn with_value<'a>(
    alloc: Global,
    values: &[Named<'a>],
    name: &'a [u8],
    value: &'a [u8],
) -> Result<Vec<Named<'a>>, NoMemory>
    ensures { IfOk result (λ all. all.items ≡ put (slice_cmp nat_cmp) name.now value.now values.now) }
{
    let mut made = Vec::new(alloc);
    let mut rest = values;
    'lower: while let [first, after @ ..] = rest {
        match name.cmp(first.name) {
            Ordering::Less => return ended(made, Named { name, value }, rest),
            Ordering::Equal => {
                let named = Named {
                    name: first.name,
                    value,
                };
                return ended(made, named, after);
            }
            Ordering::Greater => {}
        }
        made.push(same(first))?;
        rest = after;
    }
    ended(made, Named { name, value }, rest)
}

/// These values, then one more, and then others.
fn ended<'a>(
    made: Vec<Named<'a>>,
    named: Named<'a>,
    rest: &[Named<'a>],
) -> Result<Vec<Named<'a>>, NoMemory>
    ensures { IfOk result (λ all. all.items ≡ made.entry.items ++ named.entry ∷ rest.now) }
{
    let mut all = made;
    all.push(named)?;
    'rest: for other in rest {
        all.push(same(other))?;
    }
    Ok(all)
}

/// The same name and value once more.
fn same<'a>(named: &Named<'a>) -> Named<'a>
    ensures { result ≡ named.now }
{
    Named {
        name: named.name,
        value: named.value,
    }
}

/// The value of the property that has this name in WebDAV, where one of these has it.
pub(crate) fn value_among<'a>(values: &[Named<'a>], name: &PropName) -> Option<&'a [u8]>
    ensures { option_copied result
        ≡ option_map (λ found. found.1) (find (λ named. same_name (dead_name named.0) name.now) values.now) }
{
    'values: for named in values {
        if is_dead_name(named.name, name) {
            return Some(named.value);
        }
    }
    None
}

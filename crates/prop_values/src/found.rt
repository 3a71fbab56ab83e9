ghost use Rattle.std.specs.Prelude.{◌≡◌, not, OnOk};
ghost use Rattle.std.specs.List.{list_any};
ghost use Rattle.std.specs.Option.{option_map};
ghost use Rattle.dav_documents.specs.Drafts.{with_elements};
ghost use Rattle.dav_documents.specs.Written.{for_each};
ghost use Rattle.prop_values.specs.DeadValues.{dead_values, dead_value};
ghost use Rattle.prop_values.specs.Responses.{value_named, has_value, found_element, missing_element};
ghost use Rattle.prop_values.specs.Values.{content_of};

use crate::contents::{put_empty, put_property};
use crate::dead::{Named, value_among};
use crate::query::AskedName;
use crate::subject::Subject;
use crate::told::Told;
use crate::value::{Value, live_value};
use dav_documents::Writer;
use dsv_base::{NoMemory, PropName};
use std::alloc::Global;

/// What the properties of a node or a revision are looked up in.
#[derive(Debug, Drop)]
pub(crate) struct Sources<'a> {
    pub(crate) told: &'a Told<'a>,
    pub(crate) subject: &'a Subject<'a>,
    /// The properties that users set.
    pub(crate) dead: &'a [Named<'a>],
}

/// The value of the dead property of this name.
#[tactic(auto, unfolding(crate::specs::DeadValues::dead_value, crate::specs::Values::content_of))]
fn dead_value<'a>(sources: &'a Sources<'a>, name: &PropName) -> Option<Value<'a>>
    requires { sources.now.dead.now ≡ dead_values sources.now.told.now sources.now.subject.now }
    ensures { option_map content_of result ≡ dead_value sources.now.told.now sources.now.subject.now name.now }
{
    let value = value_among(sources.dead, name)?;
    Some(Value::Raw(value))
}

/// The value of the property of this name, where it has one.
#[tactic(auto, unfolding(crate::specs::Responses::value_named))]
fn value_named<'a>(sources: &'a Sources<'a>, asked: &AskedName<'_>) -> Option<Value<'a>>
    requires { sources.now.dead.now ≡ dead_values sources.now.told.now sources.now.subject.now }
    ensures { option_map content_of result ≡ value_named sources.now.told.now sources.now.subject.now asked.now }
{
    match asked.live() {
        Some(live) => live_value(sources.told, sources.subject, live),
        None => dead_value(sources, asked.name()),
    }
}

/// Whether the property of this name has a value.
fn has_value(sources: &Sources<'_>, asked: &AskedName<'_>) -> bool
    requires { sources.now.dead.now ≡ dead_values sources.now.told.now sources.now.subject.now }
    ensures { result ≡ has_value sources.now.told.now sources.now.subject.now asked.now }
{
    match value_named(sources, asked) {
        Some(_value) => true,
        None => false,
    }
}

/// Whether one of these names has a value.
pub(crate) fn any_found(sources: &Sources<'_>, names: &[AskedName<'_>]) -> bool
    requires { sources.now.dead.now ≡ dead_values sources.now.told.now sources.now.subject.now }
    ensures { result ≡ list_any (has_value sources.now.told.now sources.now.subject.now) names.now }
{
    'names: for asked in names {
        if has_value(sources, asked) {
            return true;
        }
    }
    false
}

/// Whether one of these names has none.
pub(crate) fn any_missing(sources: &Sources<'_>, names: &[AskedName<'_>]) -> bool
    requires { sources.now.dead.now ≡ dead_values sources.now.told.now sources.now.subject.now }
    ensures { result
        ≡ list_any (λ name. not (has_value sources.now.told.now sources.now.subject.now name)) names.now }
{
    'names: for asked in names {
        if !has_value(sources, asked) {
            return true;
        }
    }
    false
}

/// Writes the elements of those of these names that have a value.
pub(crate) fn put_found(
    alloc: Global,
    writer: &mut Writer,
    sources: &Sources<'_>,
    names: &[AskedName<'_>],
) -> Result<(), NoMemory>
    requires { sources.now.dead.now ≡ dead_values sources.now.told.now sources.now.subject.now }
    ensures { OnOk result
        (writer.new ≡ with_elements
        (for_each (found_element sources.now.told.now sources.now.subject.now) names.now) writer.old) }
{
    'names: for asked in names {
        put_if_found(alloc, writer, sources, asked)?;
    }
    Ok(())
}

fn put_if_found(
    alloc: Global,
    writer: &mut Writer,
    sources: &Sources<'_>,
    asked: &AskedName<'_>,
) -> Result<(), NoMemory>
    requires { sources.now.dead.now ≡ dead_values sources.now.told.now sources.now.subject.now }
    ensures { OnOk result
        (writer.new ≡ with_elements
        (found_element sources.now.told.now sources.now.subject.now asked.now) writer.old) }
{
    match value_named(sources, asked) {
        Some(value) => put_property(alloc, writer, asked.tag(), &value),
        None => Ok(()),
    }
}

/// Writes the empty elements of those of these names that have no value.
pub(crate) fn put_missing(
    writer: &mut Writer,
    sources: &Sources<'_>,
    names: &[AskedName<'_>],
) -> Result<(), NoMemory>
    requires { sources.now.dead.now ≡ dead_values sources.now.told.now sources.now.subject.now }
    ensures { OnOk result
        (writer.new ≡ with_elements
        (for_each (missing_element sources.now.told.now sources.now.subject.now) names.now) writer.old) }
{
    'names: for asked in names {
        put_if_missing(writer, sources, asked)?;
    }
    Ok(())
}

fn put_if_missing(
    writer: &mut Writer,
    sources: &Sources<'_>,
    asked: &AskedName<'_>,
) -> Result<(), NoMemory>
    requires { sources.now.dead.now ≡ dead_values sources.now.told.now sources.now.subject.now }
    ensures { OnOk result
        (writer.new ≡ with_elements
        (missing_element sources.now.told.now sources.now.subject.now asked.now) writer.old) }
{
    if has_value(sources, asked) {
        return Ok(());
    }
    put_empty(writer, asked.tag())
}

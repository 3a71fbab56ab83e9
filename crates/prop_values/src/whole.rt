ghost use Rattle.std.specs.Prelude.{◌≡◌, OnOk};
ghost use Rattle.dav_documents.specs.Drafts.{with_elements};
ghost use Rattle.dav_documents.specs.Written.{for_each};
ghost use Rattle.prop_values.specs.DeadValues.{dead_values};
ghost use Rattle.prop_values.specs.Contents.{Content, tagged_element};
ghost use Rattle.prop_values.specs.PropTags.{dead_name, tag_of};
ghost use Rattle.prop_values.specs.LiveNames.{live_name};
ghost use Rattle.prop_values.specs.Responses.{live_element, dead_element, all_elements};
ghost use Rattle.prop_values.specs.Values.{content_of};

use crate::contents::{put_content, put_raw};
use crate::dead::Named;
use crate::found::Sources;
use crate::live::Live;
use crate::live_names::{live_order, live_tag};
use crate::names::dead_tag;
use crate::value::{Value, live_value};
use dav_documents::Writer;
use dsv_base::NoMemory;
use std::alloc::Global;

/// Writes the elements of all properties.
#[tactic(auto, using(dav_documents::proofs::Trees::with_elements_joined))]
pub(crate) fn put_all(
    alloc: Global,
    writer: &mut Writer,
    sources: &Sources<'_>,
) -> Result<(), NoMemory>
    requires { sources.now.dead.now ≡ dead_values sources.now.told.now sources.now.subject.now }
    ensures { OnOk result
        (writer.new ≡ with_elements (all_elements sources.now.told.now sources.now.subject.now) writer.old) }
{
    put_live(alloc, writer, sources, live_order())?;
    put_dead(alloc, writer, sources.dead)
}

fn put_live(
    alloc: Global,
    writer: &mut Writer,
    sources: &Sources<'_>,
    lives: &[Live],
) -> Result<(), NoMemory>
    ensures { OnOk result
        (writer.new ≡ with_elements
        (for_each (live_element sources.now.told.now sources.now.subject.now) lives.now) writer.old) }
{
    'lives: for live in lives {
        put_if_live(alloc, writer, sources, *live)?;
    }
    Ok(())
}

fn put_if_live(
    alloc: Global,
    writer: &mut Writer,
    sources: &Sources<'_>,
    live: Live,
) -> Result<(), NoMemory>
    ensures { OnOk result
        (writer.new ≡ with_elements
        (live_element sources.now.told.now sources.now.subject.now live) writer.old) }
{
    match live_value(sources.told, sources.subject, live) {
        Some(value) => put_live_value(alloc, writer, live, &value),
        None => Ok(()),
    }
}

/// The element of a live property with this value.
#[tactic(auto, using(crate::proofs::Pieces::untagged_piece))]
fn put_live_value(
    alloc: Global,
    writer: &mut Writer,
    live: Live,
    value: &Value<'_>,
) -> Result<(), NoMemory>
    ensures { OnOk result
        (writer.new ≡ with_elements (tagged_element (tag_of (live_name live)) (content_of value.now)) writer.old) }
{
    let name = live_tag(live);
    writer.start(name)?;
    put_content(alloc, writer, value)?;
    writer.end(name)
}

fn put_dead(alloc: Global, writer: &mut Writer, values: &[Named<'_>]) -> Result<(), NoMemory>
    ensures { OnOk result (writer.new ≡ with_elements (for_each dead_element values.now) writer.old) }
{
    'values: for named in values {
        put_named(alloc, writer, named)?;
    }
    Ok(())
}

#[tactic(auto, using(crate::proofs::Pieces::untagged_piece))]
fn put_named(alloc: Global, writer: &mut Writer, named: &Named<'_>) -> Result<(), NoMemory>
    ensures { OnOk result (writer.new ≡ with_elements (dead_element named.now) writer.old) }
{
    let name = dead_tag(alloc, named.name)?;
    writer.start(name.get())?;
    put_raw(alloc, writer, named.value)?;
    writer.end(name.get())
}

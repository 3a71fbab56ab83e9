ghost use Rattle.std.specs.Prelude.{◌≡◌, OnOk, Some, codes, []};
ghost use Rattle.std.specs.Option.{option_copied, option_map};
ghost use Rattle.dav_documents.specs.Drafts.{ended, with_elements};
ghost use Rattle.dav_documents.specs.Written.{text_element, for_each};
ghost use Rattle.dsv_dates.specs.Dates.{iso_text};
ghost use Rattle.prop_values.specs.DeadValues.{dead_values};
ghost use Rattle.prop_values.specs.Responses.{found_element, missing_element, all_elements, found_propstat, missing_propstat, found_part, missing_part, wanted_propstats, response_about};

use crate::dead::dead_values;
use crate::found::{Sources, any_found, any_missing, put_found, put_missing};
use crate::href::put_href;
use crate::query::{AskedName, Query};
use crate::subject::Subject;
use crate::told::Told;
use crate::whole::put_all;
use dav_documents::Writer;
use dsv_base::NoMemory;
use dsv_dates::iso_text;
use std::alloc::Global;

/// Writes the answer about a node or a revision: where it is, and the properties that are wanted, with
/// their statuses (RFC 4918, sections 9.1 and 14.24). Its one error is want of memory.
pub fn write_response(
    alloc: Global,
    writer: &mut Writer,
    told: &Told<'_>,
    query: &Query<'_>,
    subject: &Subject<'_>,
) -> Result<(), NoMemory>
    ensures { OnOk result
        (writer.new ≡ with_elements (response_about told.now query.now subject.now) writer.old) }
{
    match told.moment {
        None => write_dated(alloc, writer, told, None, query, subject),
        Some(moment) => {
            let date = iso_text(moment);
            write_dated(alloc, writer, told, Some(date.as_slice()), query, subject)
        }
    }
}

/// The same with the text of the moment that is told.
fn write_dated(
    alloc: Global,
    writer: &mut Writer,
    told: &Told<'_>,
    date: Option<&[u8]>,
    query: &Query<'_>,
    subject: &Subject<'_>,
) -> Result<(), NoMemory>
    requires { option_copied date ≡ option_map iso_text told.now.moment }
    ensures { OnOk result
        (writer.new ≡ with_elements (response_about told.now query.now subject.now) writer.old) }
{
    let dead = dead_values(alloc, told, date, subject)?;
    let sources = Sources {
        told,
        subject,
        dead: dead.as_slice(),
    };
    put_response(alloc, writer, &sources, query)
}

#[tactic(auto, using(dav_documents::proofs::Trees::with_elements_joined), unfolding(crate::specs::Responses::response_about))]
fn put_response(
    alloc: Global,
    writer: &mut Writer,
    sources: &Sources<'_>,
    query: &Query<'_>,
) -> Result<(), NoMemory>
    requires { sources.now.dead.now ≡ dead_values sources.now.told.now sources.now.subject.now }
    ensures { OnOk result
        (writer.new ≡ with_elements
        (response_about sources.now.told.now query.now sources.now.subject.now) writer.old) }
{
    let told = sources.told;
    writer.start(b"D:response")?;
    put_href(alloc, writer, told.root, sources.subject)?;
    put_wanted(alloc, writer, sources, query)?;
    writer.end(b"D:response")
}

/// The properties that are wanted, with their statuses.
#[tactic(auto, using(dav_documents::proofs::Trees::with_elements_joined))]
fn put_wanted(
    alloc: Global,
    writer: &mut Writer,
    sources: &Sources<'_>,
    query: &Query<'_>,
) -> Result<(), NoMemory>
    requires { sources.now.dead.now ≡ dead_values sources.now.told.now sources.now.subject.now }
    ensures { OnOk result
        (writer.new ≡ with_elements
        (wanted_propstats sources.now.told.now query.now sources.now.subject.now) writer.old) }
{
    match query.names() {
        None => put_whole(alloc, writer, sources),
        Some(names) => put_named_parts(alloc, writer, sources, names),
    }
}

/// All properties, with their status.
fn put_whole(alloc: Global, writer: &mut Writer, sources: &Sources<'_>) -> Result<(), NoMemory>
    requires { sources.now.dead.now ≡ dead_values sources.now.told.now sources.now.subject.now }
    ensures { OnOk result
        (writer.new ≡ with_elements
        (found_propstat (all_elements sources.now.told.now sources.now.subject.now)) writer.old) }
{
    writer.start(b"D:propstat")?;
    writer.start(b"D:prop")?;
    put_all(alloc, writer, sources)?;
    end_propstat(writer, b"HTTP/1.1 200 OK")
}

/// What was found of these names, and what wasn't.
#[tactic(auto, using(dav_documents::proofs::Trees::with_elements_joined))]
fn put_named_parts(
    alloc: Global,
    writer: &mut Writer,
    sources: &Sources<'_>,
    names: &[AskedName<'_>],
) -> Result<(), NoMemory>
    requires { sources.now.dead.now ≡ dead_values sources.now.told.now sources.now.subject.now }
    ensures { OnOk result
        (writer.new ≡ with_elements
        (wanted_propstats sources.now.told.now (Some names.now) sources.now.subject.now) writer.old) }
{
    put_found_part(alloc, writer, sources, names)?;
    put_missing_part(writer, sources, names)
}

/// Those of these names that have a value, unless none has one and some have none.
fn put_found_part(
    alloc: Global,
    writer: &mut Writer,
    sources: &Sources<'_>,
    names: &[AskedName<'_>],
) -> Result<(), NoMemory>
    requires { sources.now.dead.now ≡ dead_values sources.now.told.now sources.now.subject.now }
    ensures { OnOk result
        (writer.new ≡ with_elements
        (found_part sources.now.told.now sources.now.subject.now names.now) writer.old) }
{
    if any_found(sources, names) {
        return put_found_propstat(alloc, writer, sources, names);
    }
    if !any_missing(sources, names) {
        return put_found_propstat(alloc, writer, sources, names);
    }
    Ok(())
}

fn put_found_propstat(
    alloc: Global,
    writer: &mut Writer,
    sources: &Sources<'_>,
    names: &[AskedName<'_>],
) -> Result<(), NoMemory>
    requires { sources.now.dead.now ≡ dead_values sources.now.told.now sources.now.subject.now }
    ensures { OnOk result
        (writer.new ≡ with_elements
        (found_propstat (for_each (found_element sources.now.told.now sources.now.subject.now) names.now))
        writer.old) }
{
    writer.start(b"D:propstat")?;
    writer.start(b"D:prop")?;
    put_found(alloc, writer, sources, names)?;
    end_propstat(writer, b"HTTP/1.1 200 OK")
}

/// Those of these names that have no value, if there are any.
fn put_missing_part(
    writer: &mut Writer,
    sources: &Sources<'_>,
    names: &[AskedName<'_>],
) -> Result<(), NoMemory>
    requires { sources.now.dead.now ≡ dead_values sources.now.told.now sources.now.subject.now }
    ensures { OnOk result
        (writer.new ≡ with_elements
        (missing_part sources.now.told.now sources.now.subject.now names.now) writer.old) }
{
    if any_missing(sources, names) {
        return put_missing_propstat(writer, sources, names);
    }
    Ok(())
}

fn put_missing_propstat(
    writer: &mut Writer,
    sources: &Sources<'_>,
    names: &[AskedName<'_>],
) -> Result<(), NoMemory>
    requires { sources.now.dead.now ≡ dead_values sources.now.told.now sources.now.subject.now }
    ensures { OnOk result
        (writer.new ≡ with_elements
        (missing_propstat (for_each (missing_element sources.now.told.now sources.now.subject.now) names.now))
        writer.old) }
{
    writer.start(b"D:propstat")?;
    writer.start(b"D:prop")?;
    put_missing(writer, sources, names)?;
    end_propstat(writer, b"HTTP/1.1 404 Not Found")
}

/// Ends properties with the status that they have in common.
fn end_propstat(writer: &mut Writer, status: &[u8]) -> Result<(), NoMemory>
    ensures { OnOk result
        (writer.new ≡ ended (codes "D:propstat")
        (with_elements (text_element (codes "D:status") [] status.now) (ended (codes "D:prop") writer.old))) }
{
    writer.end(b"D:prop")?;
    writer.text_element(b"D:status", status)?;
    writer.end(b"D:propstat")
}

ghost use Rattle.std.specs.Prelude.{◌≡◌, Ok};
ghost use Rattle.dsv_base.specs.Gives.{Gives};
ghost use Rattle.dav_bodies.specs.Faults.{is_free_of_body};
ghost use Rattle.dav_bodies.specs.Sayings.{first_left, asked};
ghost use Rattle.dav_bodies.specs.Bodies.{empty_body, is_body_root, said_within, said_in, body_of_document, body_read};

use crate::body::{Body, Wanted};
use crate::body_fault::BodyFault;
use crate::body_kind::BodyKind;
use crate::elements::is_dav;
use crate::propfinds::propfind_said;
use crate::said::Said;
use dav_elements::Elem;
use dav_reading::{Document, FormPlace, TreeFault, read_document};
use std::alloc::Global;

fn empty_body(kind: BodyKind) -> Result<Body, BodyFault>
    ensures { result ≡ empty_body kind }
{
    match kind {
        BodyKind::Propfind => Ok(Body::Propfind(Wanted::All)),
    }
}

fn is_body_root(kind: BodyKind, root: &Elem) -> bool
    ensures { result ≡ is_body_root kind root.now }
{
    match kind {
        BodyKind::Propfind => is_dav(root, b"propfind"),
    }
}

fn said_within(alloc: Global, kind: BodyKind, root: &Elem) -> Result<Said, BodyFault>
    ensures { Gives is_free_of_body result (said_within kind root.now) }
{
    match kind {
        BodyKind::Propfind => propfind_said(alloc, root),
    }
}

fn said_in(alloc: Global, kind: BodyKind, root: &Elem) -> Result<Said, BodyFault>
    ensures { Gives is_free_of_body result (said_in kind root.now) }
{
    if !is_body_root(kind, root) {
        return Err(BodyFault::BadBody);
    }
    said_within(alloc, kind, root)
}

fn first_left(own: FormPlace, other: Option<FormPlace>) -> FormPlace
    ensures { result ≡ first_left own other }
{
    match other {
        None => own,
        Some(other) => { if own.begun < other.begun { own } else { other } }
    }
}

fn asked(other: Option<FormPlace>, said: Said) -> Result<Body, BodyFault>
    ensures { result ≡ asked other said }
{
    match said {
        Said::Asks(body) => match other {
            None => Ok(body),
            Some(other) => Err(BodyFault::NotInProfile { form: other.form }),
        },
        Said::Leaves(own) => {
            let first = first_left(own, other);
            Err(BodyFault::NotInProfile { form: first.form })
        }
    }
}

fn body_of(alloc: Global, kind: BodyKind, document: &Document) -> Result<Body, BodyFault>
    ensures { Gives is_free_of_body result (body_of_document kind (Ok document.now)) }
{
    match said_in(alloc, kind, &document.root) {
        Ok(said) => asked(document.form, said),
        Err(fault) => Err(fault),
    }
}

/// Reads the body of a request: what it asks for.
///
/// Its errors: it isn't in the wide grammar of its kind, which has the left-out forms in it; it is, with a form
/// that is left out, of which the first is named; or want of memory.
#[tactic(auto, unfolding(crate::specs::Bodies::body_read))]
pub fn read_body(alloc: Global, kind: BodyKind, bytes: &[u8]) -> Result<Body, BodyFault>
    ensures { Gives is_free_of_body result (body_read kind bytes.now) }
{
    if bytes.is_empty() {
        return empty_body(kind);
    }
    match read_document(alloc, bytes, 32) {
        Ok(document) => body_of(alloc, kind, &document),
        Err(TreeFault::BadDocument) => Err(BodyFault::BadBody),
        Err(TreeFault::NotInProfile(form)) => Err(BodyFault::NotInProfile { form }),
        Err(TreeFault::NoMemory) => Err(BodyFault::NoMemory),
    }
}

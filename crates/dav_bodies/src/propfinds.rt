ghost use Rattle.std.specs.Prelude.{◌≡◌, ◌∷◌, [], IfOk, option_copied, option_to_list};
ghost use Rattle.std.specs.List.{filter};
ghost use Rattle.dsv_base.specs.Gives.{Gives};
ghost use Rattle.dsv_base.specs.declared.form.Form.TheVariants as forms;
ghost use Rattle.dav_bodies.specs.Elements.{elements_in, only_one, size_of_all, items_before};
ghost use Rattle.dav_bodies.specs.Faults.{is_free_of_body};
ghost use Rattle.dav_bodies.specs.Propfinds.{is_ask, begun_before_ask, said_by, propfind_said};

use crate::body::{Body, Wanted};
use crate::body_fault::BodyFault;
use crate::elements::{count_elements, is_dav, names_of, size_of, sum};
use crate::said::Said;
use dav_elements::{Elem, Part};
use dav_reading::FormPlace;
use dsv_base::{Form, NoMemory};
use std::alloc::Global;

fn is_ask(elem: &Elem) -> bool
    ensures { result ≡ is_ask elem.now }
{
    is_dav(elem, b"prop") || is_dav(elem, b"allprop") || is_dav(elem, b"propname")
}

/// The part as an element that says what is asked for, if it is one.
fn ask_in(part: &Part) -> Option<&Elem>
    ensures { option_to_list (option_copied result) ≡ filter is_ask (elements_in (part.now ∷ [])) }
{
    match part {
        Part::Text(_) => None,
        Part::Child(elem) => { if is_ask(elem) { Some(elem) } else { None } }
    }
}

/// The one element that says what is asked for, if there is no other.
fn only_ask(parts: &[Part]) -> Option<&Elem>
    ensures { option_copied result ≡ only_one (filter is_ask (elements_in parts.now)) }
{
    let mut found: Option<&Elem> = None;
    'parts: for part in parts {
        match ask_in(part) {
            None => {}
            Some(elem) => {
                if found.is_some() {
                    return None;
                }
                found = Some(elem);
            }
        }
    }
    found
}

/// How many elements stand before the first that says what is asked for, with all that stand in them.
fn size_before_ask(parts: &[Part]) -> Result<u64, NoMemory>
    ensures { IfOk result (λ size. size ≡ size_of_all (items_before is_ask (elements_in parts.now))) }
{
    let mut size = 0u64;
    'parts: for part in parts {
        if let Part::Child(elem) = part {
            if is_ask(elem) {
                return Ok(size);
            }
            size = sum(size, size_of(elem)?)?;
        }
    }
    Ok(size)
}

fn names_left_out(root: &Elem) -> Result<FormPlace, NoMemory>
    ensures { IfOk result (λ place. place ≡ record { form = forms.Propname; begun = begun_before_ask root.now }) }
{
    let before = size_before_ask(root.parts.as_slice())?;
    let begun = sum(1, before)?;
    Ok(FormPlace {
        form: Form::Propname,
        begun,
    })
}

fn said_by(alloc: Global, root: &Elem, ask: &Elem) -> Result<Said, BodyFault>
    ensures { Gives is_free_of_body result (said_by root.now ask.now) }
{
    if is_dav(ask, b"prop") {
        if count_elements(ask.parts.as_slice()) > 1000 {
            return Err(BodyFault::BadBody);
        }
        let names = names_of(alloc, ask.parts.as_slice())?;
        return Ok(Said::Asks(Body::Propfind(Wanted::These(names))));
    }
    if is_dav(ask, b"allprop") {
        return Ok(Said::Asks(Body::Propfind(Wanted::All)));
    }
    let place = names_left_out(root)?;
    Ok(Said::Leaves(place))
}

/// What a PROPFIND's root says (RFC 4918, section 14.20).
///
/// Its errors: there isn't exactly one element that says what is asked for, or it has more than 1,000 names;
/// or want of memory.
pub fn propfind_said(alloc: Global, root: &Elem) -> Result<Said, BodyFault>
    ensures { Gives is_free_of_body result (propfind_said root.now) }
{
    match only_ask(root.parts.as_slice()) {
        None => Err(BodyFault::BadBody),
        Some(ask) => said_by(alloc, root, ask),
    }
}

ghost use Rattle.std.specs.Prelude.{ℕ, ◌≡◌, ◌+◌, ◌&&◌, cond, Some, None, option_map, IfOk};
ghost use Rattle.dav_documents.specs.Plain.{begins_name};
ghost use Rattle.dav_reading.specs.Modes.{form_of_aside, form_in, first_form, placed_at, form_with, begun_with};
ghost use Rattle.dav_reading.specs.Documents.{is_content};

use crate::form_place::FormPlace;
use crate::mode::{Aside, Mode, Reader};
use dav_elements::begins_name;
use dsv_base::{Form, NoMemory};

fn form_of_aside(aside: &Aside, b: u8) -> Option<Form>
    ensures { result ≡ form_of_aside aside.now b }
{
    match aside {
        Aside::Marked(_) => None,
        Aside::Comment => None,
        Aside::CommentDash => None,
        Aside::CommentEnd => None,
        Aside::Data => None,
        Aside::DataBracket => None,
        Aside::DataEnd => None,
        Aside::Typing(inside) => form_if(b == b'>' && *inside == 0, Form::Doctype),
        Aside::Quoted(_, _) => None,
        Aside::Processing => None,
        Aside::ProcessingEnd => form_if(b == b'>', Form::Processing),
    }
}

fn form_if(ends: bool, form: Form) -> Option<Form>
    ensures { result ≡ cond ends (Some form) None }
{
    if ends { Some(form) } else { None }
}

/// The left-out form that ends with this byte, if one does.
fn form_in(mode: &Mode, b: u8) -> Option<Form>
    ensures { result ≡ form_in mode.now b }
{
    match mode {
        Mode::Content(_) => None,
        Mode::TextRef(_) => None,
        Mode::Less => None,
        Mode::Naming(_) => None,
        Mode::Behind(_) => None,
        Mode::Among(_) => None,
        Mode::Keying(_, _) => None,
        Mode::Keyed(_, _) => None,
        Mode::Equal(_, _) => None,
        Mode::Valued(_, _, _, _) => None,
        Mode::ValueRef(_, _, _, _, _) => None,
        Mode::Slash(_) => None,
        Mode::Closing(_) => None,
        Mode::Closed(_) => None,
        Mode::Beside(aside) => form_of_aside(aside, b),
    }
}

fn first_form(first: Option<FormPlace>, here: Option<FormPlace>) -> Option<FormPlace>
    ensures { result ≡ first_form first here }
{
    match first {
        None => here,
        Some(first) => Some(first),
    }
}

fn placed_at(begun: u64, form: Option<Form>) -> Option<FormPlace>
    ensures { result ≡ option_map (placed_at begun) form }
{
    match form {
        None => None,
        Some(form) => Some(FormPlace { form, begun }),
    }
}

/// The first left-out form up to and with this byte.
pub fn form_with(reader: &Reader, b: u8) -> Option<FormPlace>
    ensures { result ≡ form_with reader.now b }
{
    let here = placed_at(reader.begun, form_in(&reader.place.mode, b));
    first_form(reader.form, here)
}

fn is_less(mode: &Mode) -> bool
    ensures { (begun b : ℕ) → begun_with begun mode.now b ≡ cond (result && begins_name b) (begun + 1) begun }
{
    match mode {
        Mode::Content(_) => false,
        Mode::TextRef(_) => false,
        Mode::Less => true,
        Mode::Naming(_) => false,
        Mode::Behind(_) => false,
        Mode::Among(_) => false,
        Mode::Keying(_, _) => false,
        Mode::Keyed(_, _) => false,
        Mode::Equal(_, _) => false,
        Mode::Valued(_, _, _, _) => false,
        Mode::ValueRef(_, _, _, _, _) => false,
        Mode::Slash(_) => false,
        Mode::Closing(_) => false,
        Mode::Closed(_) => false,
        Mode::Beside(_) => false,
    }
}

/// How many elements began up to and with this byte. There is no memory for a text with more of them than a
/// number tells.
pub fn begun_with(begun: u64, mode: &Mode, b: u8) -> Result<u64, NoMemory>
    ensures { IfOk result (λ now. now ≡ begun_with begun mode.now b) }
{
    if is_less(mode) && begins_name(b) {
        return match begun.checked_add(1) {
            Some(begun) => Ok(begun),
            None => Err(NoMemory),
        };
    }
    Ok(begun)
}

/// Whether a reader stands between tags, outside all else.
pub fn is_content(mode: &Mode) -> bool
    ensures { result ≡ is_content mode.now }
{
    match mode {
        Mode::Content(_) => true,
        Mode::TextRef(_) => false,
        Mode::Less => false,
        Mode::Naming(_) => false,
        Mode::Behind(_) => false,
        Mode::Among(_) => false,
        Mode::Keying(_, _) => false,
        Mode::Keyed(_, _) => false,
        Mode::Equal(_, _) => false,
        Mode::Valued(_, _, _, _) => false,
        Mode::ValueRef(_, _, _, _, _) => false,
        Mode::Slash(_) => false,
        Mode::Closing(_) => false,
        Mode::Closed(_) => false,
        Mode::Beside(_) => false,
    }
}

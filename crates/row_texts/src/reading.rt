use crate::refusals::put_form;
use dav_elements::{Attr, Elem, Part};
use dav_reading::{TreeFault, read_tree};
use dsv_base::PropName;
use row_files::{Answer, Given};

/// How many elements stand in each other at most in a document of a row, as in a body of a request.
const NEST: u32 = 32;

/// Answers a row whose column is a document: what is read of it.
pub fn answer_reading(given: &Given<'_>, out: &mut Answer) {
    match read_tree(given.alloc, given.bytes(0), NEST) {
        Ok(root) => put_element(&root, out),
        Err(TreeFault::BadDocument) => out.put(b"bad"),
        Err(TreeFault::NotInProfile(form)) => put_form(form, out),
        Err(TreeFault::NoMemory) => out.give_up(),
    }
}

/// The name, the attributes, and in brackets what stands in the element, if anything does.
fn put_element(elem: &Elem, out: &mut Answer) {
    put_tag(elem, out);
    if elem.parts.is_empty() {
        return;
    }
    out.put(b" [");
    for part in elem.parts.as_slice() {
        out.put(b" ");
        match part {
            Part::Text(text) => put_quoted(text.get(), out),
            Part::Child(child) => put_element(child, out),
        }
    }
    out.put(b" ]");
}

fn put_tag(elem: &Elem, out: &mut Answer) {
    put_name(&elem.name, out);
    'attributes: for attr in elem.attrs.get() {
        put_attribute(attr, out);
    }
}

fn put_attribute(attr: &Attr, out: &mut Answer) {
    out.put(b" ");
    put_name(&attr.name, out);
    out.put(b"=");
    put_quoted(attr.value.get(), out);
}

/// A name behind its namespace in braces; one in no namespace stands alone.
fn put_name(name: &PropName, out: &mut Answer) {
    if !name.space.get().is_empty() {
        out.put(b"{");
        out.put(name.space.get());
        out.put(b"}");
    }
    out.put(name.name.get());
}

fn put_quoted(text: &[u8], out: &mut Answer) {
    out.put(b"\"");
    out.put(text);
    out.put(b"\"");
}

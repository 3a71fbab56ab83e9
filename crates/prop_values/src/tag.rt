ghost use Rattle.std.specs.Prelude.{◌≡◌, ◌++◌, [], IfOk, OnOk, codes};
ghost use Rattle.std.specs.List.{find};
ghost use Rattle.std.specs.Option.{option_copied, option_map};
ghost use Rattle.std.specs.Str.{bytes_eq};
ghost use Rattle.dav_documents.specs.Drafts.{started, with_attributes};
ghost use Rattle.dav_documents.specs.Namespaces.{uri_of};
ghost use Rattle.prop_values.specs.PropTags.{bound_prefixes, unbound_tag, tag_of};

use crate::names::prefixed;
use dav_documents::{Namespace, Writer};
use dsv_base::{Bytes, NoMemory, PropName};
use std::alloc::Global;
use std::marker::Model;

/// How the name of a property is written: the name of an element, and the namespace that this binds the
/// prefix N to, if it does. Contracts see it as a name and attributes.
#[derive(Debug, Drop)]
pub(crate) struct Tag<'a> {
    name: Bytes,
    space: Option<&'a [u8]>,
}

impl<'a> Model for Tag<'a> {
    ghost use Rattle.std.specs.Option.{option_copied};
    ghost use Rattle.prop_values.specs.PropTags.{PropTag, own_binding};

    ghost Value = { PropTag };

    ghost view = { λ t. record { name = t.name; attributes = own_binding (option_copied t.space) } };
}

impl<'a> Tag<'a> {
    /// The tag of a name (Namespaces in XML 1.0, section 3). Its one error is want of memory.
    #[tactic(auto, unfolding(crate::specs::PropTags::tag_of))]
    pub(crate) fn of(alloc: Global, name: &'a PropName) -> Result<Tag<'a>, NoMemory>
        ensures { IfOk result (λ tag. tag ≡ tag_of name.now) }
    {
        match bound_prefix(name.space.get()) {
            Some(prefix) => Tag::behind(alloc, prefix, name),
            None => Tag::unbound(alloc, name),
        }
    }

    /// The tag of a name whose namespace no prefix is bound to at the root.
    fn unbound(alloc: Global, name: &'a PropName) -> Result<Tag<'a>, NoMemory>
        ensures { IfOk result (λ tag. tag ≡ unbound_tag name.now) }
    {
        if name.space.get() == b"".as_slice() {
            let name = name.name.copy()?;
            return Ok(Tag { name, space: None });
        }
        if name.space.get() == b"http://www.w3.org/XML/1998/namespace".as_slice() {
            return Tag::behind(alloc, b"xml", name);
        }
        let local = prefixed(alloc, b"N", name.name.get())?;
        Ok(Tag {
            name: local,
            space: Some(name.space.get()),
        })
    }

    /// A local name behind a prefix that is bound already.
    fn behind(alloc: Global, prefix: &[u8], name: &PropName) -> Result<Tag<'a>, NoMemory>
        ensures { IfOk result
            (λ tag. tag ≡ record { name = prefix.now ++ codes ":" ++ name.now.name; attributes = [] }) }
    {
        let name = prefixed(alloc, prefix, name.name.get())?;
        Ok(Tag { name, space: None })
    }

    /// The name of the element.
    pub(crate) fn name(&self) -> &[u8]
        ensures { result.now ≡ self.now.name }
    {
        self.name.get()
    }

    /// Begins an element with this tag. Its one error is want of memory.
    pub(crate) fn start(&self, writer: &mut Writer) -> Result<(), NoMemory>
        ensures { OnOk result
            (writer.new ≡ with_attributes self.now.attributes (started self.now.name writer.old)) }
    {
        writer.start(self.name.get())?;
        match self.space {
            None => Ok(()),
            Some(space) => writer.bind(b"N", space),
        }
    }
}

/// The prefix that is bound to a namespace at the root, if one is.
fn bound_prefix(space: &[u8]) -> Option<&'static [u8]>
    ensures { option_copied result
        ≡ option_map (λ bound. bound.0) (find (λ bound. bytes_eq (uri_of bound.1) space.now) bound_prefixes) }
{
    if Namespace::Dav.uri() == space {
        return Some(b"D");
    }
    if Namespace::SubversionDav.uri() == space {
        return Some(b"V");
    }
    if Namespace::SubversionSvn.uri() == space {
        return Some(b"S");
    }
    if Namespace::SubversionCustom.uri() == space {
        return Some(b"C");
    }
    None
}

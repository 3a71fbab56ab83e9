ghost use Rattle.std.specs.Prelude.{◌≡◌, []};
ghost use Rattle.std.specs.List.{find};
ghost use Rattle.prop_values.specs.PropTags.{same_name, tag_of};
ghost use Rattle.prop_values.specs.LiveNames.{live_order, live_name, live_named};

use crate::live::Live;
use crate::names::is_within;
use dav_documents::Namespace;
use dsv_base::PropName;

/// The live properties, in the order in which they are told where all are wanted.
pub(crate) fn live_order() -> &'static [Live]
    ensures { result.now ≡ live_order }
{
    &[
        Live::ResourceType,
        Live::ContentLength,
        Live::VersionName,
        Live::CreationDate,
        Live::LastModified,
        Live::CreatorName,
        Live::CheckedIn,
        Live::LockDiscovery,
        Live::RelativePath,
        Live::RepositoryUuid,
        Live::Md5Checksum,
        Live::Sha1Checksum,
        Live::PropertyCount,
    ]
}

/// Whether a live property has this name.
fn has_name(live: Live, name: &PropName) -> bool
    ensures { result ≡ same_name (live_name live) name.now }
{
    match live {
        Live::ResourceType => is_within(name, Namespace::Dav, b"resourcetype"),
        Live::ContentLength => is_within(name, Namespace::Dav, b"getcontentlength"),
        Live::VersionName => is_within(name, Namespace::Dav, b"version-name"),
        Live::CreationDate => is_within(name, Namespace::Dav, b"creationdate"),
        Live::LastModified => is_within(name, Namespace::Dav, b"getlastmodified"),
        Live::CreatorName => is_within(name, Namespace::Dav, b"creator-displayname"),
        Live::CheckedIn => is_within(name, Namespace::Dav, b"checked-in"),
        Live::LockDiscovery => is_within(name, Namespace::Dav, b"lockdiscovery"),
        Live::RelativePath => is_within(name, Namespace::SubversionDav, b"baseline-relative-path"),
        Live::RepositoryUuid => is_within(name, Namespace::SubversionDav, b"repository-uuid"),
        Live::Md5Checksum => is_within(name, Namespace::SubversionDav, b"md5-checksum"),
        Live::Sha1Checksum => is_within(name, Namespace::SubversionDav, b"sha1-checksum"),
        Live::PropertyCount => is_within(name, Namespace::SubversionDav, b"deadprop-count"),
    }
}

/// The live property of a name, if there is one.
#[tactic(auto, unfolding(crate::specs::LiveNames::live_named))]
pub(crate) fn live_named(name: &PropName) -> Option<Live>
    ensures { result ≡ live_named name.now }
{
    first_named(live_order(), name)
}

fn first_named(lives: &[Live], name: &PropName) -> Option<Live>
    ensures { result ≡ find (λ live. same_name (live_name live) name.now) lives.now }
{
    'lives: for live in lives {
        if has_name(*live, name) {
            return Some(*live);
        }
    }
    None
}

/// The name of its element, behind one of the prefixes that are bound at the root.
#[tactic(auto, unfolding(crate::specs::PropTags::tag_of, dav_documents::specs::Namespaces::uri_of))]
pub(crate) fn live_tag(live: Live) -> &'static [u8]
    ensures { tag_of (live_name live) ≡ record { name = result.now; attributes = [] } }
{
    match live {
        Live::ResourceType => b"D:resourcetype",
        Live::ContentLength => b"D:getcontentlength",
        Live::VersionName => b"D:version-name",
        Live::CreationDate => b"D:creationdate",
        Live::LastModified => b"D:getlastmodified",
        Live::CreatorName => b"D:creator-displayname",
        Live::CheckedIn => b"D:checked-in",
        Live::LockDiscovery => b"D:lockdiscovery",
        Live::RelativePath => b"V:baseline-relative-path",
        Live::RepositoryUuid => b"V:repository-uuid",
        Live::Md5Checksum => b"V:md5-checksum",
        Live::Sha1Checksum => b"V:sha1-checksum",
        Live::PropertyCount => b"V:deadprop-count",
    }
}

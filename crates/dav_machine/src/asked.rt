use dav_bodies::Wanted;
use dav_replies::Client;

/// What a request asks for: one variant for each method that is answered yet, with what its headers and
/// its body say.
#[derive(Debug, Drop)]
pub enum Asked {
    /// What the server can do, and where its resources are (RFC 9110, section 9.3.7), as this client is
    /// told it.
    Options { client: Client },
    /// The content of a node (section 9.3.1).
    Get,
    /// The same without the content (section 9.3.2).
    Head,
    /// These properties of a node or a revision, and of a node's children too or not (RFC 4918,
    /// section 9.1).
    Propfind { children: bool, wanted: Wanted },
}

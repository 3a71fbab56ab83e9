ghost use Rattle.std.specs.Prelude.{◌≡◌};
ghost use Rattle.dav_documents.specs.Namespaces.{uri_of};

/// A namespace of WebDAV or of Subversion.
#[derive(Clone, Copy, Debug, PartialEq, Eq)]
pub enum Namespace {
    /// WebDAV's own (RFC 4918, section 21).
    Dav,
    /// Subversion's reports.
    Svn,
    /// Subversion's live properties.
    SubversionDav,
    /// Properties whose names begin `svn:`.
    SubversionSvn,
    /// All other properties.
    SubversionCustom,
    /// The text for the reader of an error.
    ApacheDav,
}

impl Namespace {
    /// Its name, as an attribute `xmlns` tells it.
    #[tactic(auto, unfolding(crate::specs::Namespaces::uri_of))]
    pub fn uri(self) -> &'static [u8]
        ensures { result.now ≡ uri_of self }
    {
        match self {
            Namespace::Dav => b"DAV:",
            Namespace::Svn => b"svn:",
            Namespace::SubversionDav => b"http://subversion.tigris.org/xmlns/dav/",
            Namespace::SubversionSvn => b"http://subversion.tigris.org/xmlns/svn/",
            Namespace::SubversionCustom => b"http://subversion.tigris.org/xmlns/custom/",
            Namespace::ApacheDav => b"http://apache.org/dav/xmlns",
        }
    }
}

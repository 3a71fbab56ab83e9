//! Documents that davsvn writes, as bodies in XML and listings in HTML: element trees, which contracts
//! speak of, and a writer that makes their bytes piece by piece.
#![tactic(auto)]

mod namespace;
mod writer;

pub use namespace::Namespace;
pub use writer::Writer;

use anyhow::{Result, bail};
use std::alloc::Global;

/// A text that rows name: a file, or what a line `text NAME: ..` gave.
#[derive(Drop)]
struct Named {
    name: String,
    bytes: Vec<u8>,
}

/// The texts that rows name.
#[derive(Drop)]
pub struct Book {
    texts: Vec<Named>,
}

impl Book {
    /// A book without texts.
    pub fn new(alloc: Global) -> Book {
        Book {
            texts: Vec::new(alloc),
        }
    }

    /// Gives a text a name that none has yet.
    pub fn add(&mut self, name: String, bytes: Vec<u8>) -> Result<()> {
        if self.find(name.as_str()).is_some() {
            bail!("two texts of the name {name}");
        }
        self.texts.push(Named { name, bytes })?;
        Ok(())
    }

    /// The text of this name.
    pub fn find(&self, name: &str) -> Option<&[u8]> {
        for text in &self.texts {
            if text.name.as_str() == name {
                return Some(text.bytes.as_slice());
            }
        }
        None
    }

    /// The names of the files whose names begin with `rows`.
    pub fn row_files(&self, alloc: Global) -> Result<Vec<String>> {
        let mut names = Vec::new(alloc);
        for text in &self.texts {
            if text.name.starts_with("rows") {
                names.push(text.name.clone()?)?;
            }
        }
        Ok(names)
    }
}

use anyhow::Result;
use std::alloc::Global;

/// How many rows hold, and a line for each that doesn't.
#[derive(Drop)]
pub struct Report {
    alloc: Global,
    /// The file whose rows are counted.
    file: String,
    held: u32,
    faults: Vec<String>,
}

impl Report {
    pub fn new(alloc: Global) -> Report {
        Report {
            alloc,
            file: String::new(alloc),
            held: 0,
            faults: Vec::new(alloc),
        }
    }

    /// Goes on to the rows of this file.
    pub fn enter(&mut self, file: String) {
        self.file = file;
    }

    /// Counts a row, by its name and by where it differs, if anywhere.
    pub fn count(&mut self, name: &str, difference: Option<String>) -> Result<()> {
        match difference {
            None => self.held = self.held.saturating_add(1),
            Some(difference) => {
                let fault = format!(in self.alloc; "{}: {name}: {difference}", self.file)?;
                self.faults.push(fault)?;
            }
        }
        Ok(())
    }

    pub fn held(&self) -> u32 {
        self.held
    }

    pub fn faults(&self) -> &[String] {
        self.faults.as_slice()
    }
}

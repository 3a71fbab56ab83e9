use anyhow::Result;

/// A line of a row, `KEY: VALUE`. A line of a table, `- GIVEN => WANTED`, has the key `-`.
#[derive(Drop)]
pub struct Line {
    /// Its number in the file, from 1.
    pub number: u32,
    pub key: String,
    pub value: String,
}

impl Line {
    /// A copy.
    pub fn copy(&self) -> Result<Line> {
        Ok(Line {
            number: self.number,
            key: self.key.clone()?,
            value: self.value.clone()?,
        })
    }
}

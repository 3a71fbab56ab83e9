use anyhow::Result;
use std::alloc::Global;

/// The most bytes of a text that a line on a difference shows.
const MOST_SHOWN_BYTES: usize = 4_000;

/// What was wanted of this part of a row and what came in its place, where the two differ.
pub fn difference(alloc: Global, part: &str, wanted: &[u8], came: &[u8]) -> Result<Option<String>> {
    if wanted == came {
        return Ok(None);
    }
    let text = format!(in alloc;
        "{part}: wanted {}, came {}",
        front_of(wanted).escape_ascii(),
        front_of(came).escape_ascii()
    )?;
    Ok(Some(text))
}

fn front_of(bytes: &[u8]) -> &[u8] {
    &bytes[..bytes.len().min(MOST_SHOWN_BYTES)]
}

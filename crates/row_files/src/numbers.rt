use anyhow::Result;
use dsv_base::Rev;
use std::alloc::Global;

/// Numbers with blanks between them; `none` is no number.
pub fn numbers_in(alloc: Global, text: &str) -> Result<Vec<u64>> {
    let mut numbers = Vec::new(alloc);
    if text == "none" {
        return Ok(numbers);
    }
    for word in text.split_whitespace() {
        numbers.push(word.parse::<u64>()?)?;
    }
    Ok(numbers)
}

/// The revision of this number.
pub fn revision_in(text: &str) -> Option<Rev> {
    match text.parse::<u32>() {
        Ok(number) => Rev::of(number),
        Err(_) => None,
    }
}

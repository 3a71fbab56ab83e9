/// What has this name in a list of pairs.
pub fn named<T: Copy>(pairs: &[(&str, T)], name: &str) -> Option<T> {
    'pairs: for (known, value) in pairs {
        if *known == name {
            return Some(*value);
        }
    }
    None
}

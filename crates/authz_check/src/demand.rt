use authz_file::Right;

/// What is asked of the right at each of some paths.
#[derive(Clone, Copy)]
pub enum Demand {
    /// This right or a greater one.
    AtLeast(Right),
    /// No right at all.
    Nothing,
}

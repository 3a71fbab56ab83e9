/// What a request changes in the repository. As yet no request changes anything, so there is none, and
/// no Debug that could be called.
#[derive(Drop)]
pub enum Effect {}

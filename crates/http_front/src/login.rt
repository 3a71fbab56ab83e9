use dsv_base::Person;

/// Who a request says that it comes from (RFC 7617).
#[derive(Debug, Drop)]
pub enum Login {
    /// It doesn't say.
    Nobody,
    /// A user of the users file, by that user's password.
    User(Person),
    /// It names no user of the users file with that user's password.
    Wrong,
}

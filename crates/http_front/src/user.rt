use dsv_base::Bytes;

/// One user of the users file. It has no Debug, which would show the password.
#[derive(Drop)]
pub struct User {
    pub name: Bytes,
    pub password: Bytes,
}

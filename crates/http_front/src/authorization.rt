ghost use Rattle.std.specs.Prelude.{◌≡◌, IfOk, option_copied};
ghost use Rattle.base64.specs.Engines.{standard};
ghost use Rattle.base64.specs.GeneralPurpose.{decoded_of};
ghost use Rattle.http_front.specs.Logins.{token_of, credentials_of, login_of, login_with, IsNamed};

use crate::field_fault::FieldFault;
use crate::fields::field_named;
use crate::login::Login;
use crate::users::Users;
use base64::DecodeAllocError;
use base64::engine::general_purpose::STANDARD;
use dsv_base::{Bytes, Field, NoMemory, Person, cut_at};
use std::alloc::Global;

/// Who a request with these fields comes from. The one error is want of memory.
#[tactic(auto, unfolding(crate::specs::Logins::login_of))]
pub(crate) fn login_of(alloc: Global, users: &Users, fields: &[Field]) -> Result<Login, NoMemory>
    ensures value { IfOk result (λ login. login ≡ login_of users.now fields.now) }
    ensures named { IfOk result IsNamed }
{
    match field_named(fields, b"authorization") {
        Ok(None) => Ok(Login::Nobody),
        Ok(Some(value)) => login_with(alloc, users, value),
        Err(FieldFault::Doubled) => Ok(Login::Wrong),
    }
}

/// The user that the value is the credentials of.
fn login_with(alloc: Global, users: &Users, value: &[u8]) -> Result<Login, NoMemory>
    ensures value { IfOk result (λ login. login ≡ login_with users.now (credentials_of value.now)) }
    ensures named { IfOk result IsNamed }
{
    let Some(token) = token_of(value) else {
        return Ok(Login::Wrong);
    };
    let Some(pair) = decoded(alloc, token)? else {
        return Ok(Login::Wrong);
    };
    let Some((name, password)) = cut_at(pair.get(), b':') else {
        return Ok(Login::Wrong);
    };
    match users.user_number(name, password) {
        None => Ok(Login::Wrong),
        Some(number) => Ok(Login::User(Person {
            number,
            name: Bytes::of(alloc, name)?,
        })),
    }
}

/// What stands after `Basic`, in any case of letters, and one space.
fn token_of(value: &[u8]) -> Option<&[u8]>
    ensures { option_copied result ≡ token_of value.now }
{
    let (scheme, token) = cut_at(value, b' ')?;
    if scheme.eq_ignore_ascii_case(b"basic") {
        Some(token)
    } else {
        None
    }
}

/// The bytes that the token is strict base64 of.
#[tactic(auto, unfolding(base64::specs::GeneralPurpose::decoded_of))]
fn decoded(alloc: Global, token: &[u8]) -> Result<Option<Bytes>, NoMemory>
    ensures { IfOk result (λ bytes. bytes ≡ decoded_of standard token.now) }
{
    match STANDARD.decode(alloc, token) {
        Ok(bytes) => Ok(Some(Bytes::from_vec(bytes))),
        Err(DecodeAllocError::DecodeError(_)) => Ok(None),
        Err(DecodeAllocError::OutOfMemory) => Err(NoMemory),
    }
}

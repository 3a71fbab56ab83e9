ghost use Rattle.std.specs.Prelude.{◌≡◌, ◌≤◌, ◌++◌, false, true, length, IfOk, IfErr, IfSome, IsTrue, OnOk, option_to_list};
ghost use Rattle.dsv_base.specs.Gives.{Gives};
ghost use Rattle.dsv_base.specs.Names.{is_user_name};
ghost use Rattle.http_front.specs.UsersFile.{user_of_line, is_refused, users_of, is_free_users_fault, SaysRefused};

use crate::user::User;
use crate::users::{MOST_USERS, Users};
use crate::users_fault::UsersFault;
use dsv_base::{Bytes, NoMemory, cut_at, is_skipped, is_user_name, next_line};
use std::alloc::Global;

/// The most bytes that a password may have.
const MOST_PASSWORD_BYTES: usize = 255;

/// The user of a line, if it is one's.
fn user_of_line(alloc: Global, line: &[u8]) -> Result<Option<User>, NoMemory>
    ensures value { IfOk result (λ user. user ≡ user_of_line line.now) }
    ensures named { IfOk result (λ user. IfSome user (λ u. IsTrue (is_user_name u.name))) }
{
    let Some((name, password)) = cut_at(line, b':') else {
        return Ok(None);
    };
    if !is_user_name(name) {
        return Ok(None);
    }
    if password.len() > MOST_PASSWORD_BYTES {
        return Ok(None);
    }
    Ok(Some(User {
        name: Bytes::of(alloc, name)?,
        password: Bytes::of(alloc, password)?,
    }))
}

/// The users together with the one of a line, which has this number.
fn with_line(alloc: Global, users: Users, number: u32, line: &[u8]) -> Result<Users, UsersFault>
    ensures taken { OnOk result (is_refused users (user_of_line line.now) ≡ false) }
    ensures more { IfOk result (λ all. all ≡ users ++ option_to_list (user_of_line line.now)) }
    ensures refused { IfErr result (SaysRefused number (is_refused users (user_of_line line.now))) }
{
    let Some(user) = user_of_line(alloc, line)? else {
        return Err(UsersFault::BadUsers { line: number });
    };
    if users.len() >= MOST_USERS {
        return Err(UsersFault::BadUsers { line: number });
    }
    if users.has(user.name.get()) {
        return Err(UsersFault::BadUsers { line: number });
    }
    let users = users.with(alloc, user)?;
    Ok(users)
}

/// The users of a users file of at most 268,435,456 bytes.
///
/// Each line is a user, NAME:PASSWORD, split at the first colon. Lines end with a line feed, and a
/// CR before it is dropped; blank lines and those that begin with `#` are skipped; nothing else is
/// dropped. NAME is what [`is_user_name`] takes; PASSWORD is any bytes, at most 255.
///
/// [`UsersFault::BadUsers`] names the first line that is neither skipped nor a user's, has the name
/// of a user above it, or comes after 10,000 users.
#[tactic(auto, unfolding(crate::specs::UsersFile::users_of))]
pub fn read_users(alloc: Global, bytes: &[u8]) -> Result<Users, UsersFault>
    requires { length bytes.now ≤ 268435456 }
    ensures { Gives is_free_users_fault result (users_of bytes.now) }
{
    let mut users = Users::none(alloc);
    let mut number = 1u32;
    let mut rest = Some(bytes);
    'lines: while let Some(text) = rest {
        let (line, after) = next_line(text);
        if !is_skipped(line) {
            users = with_line(alloc, users, number, line)?;
        }
        number += 1;
        rest = after;
    }
    Ok(users)
}

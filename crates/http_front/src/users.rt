ghost use Rattle.std.specs.Prelude.{◌≡◌, ◌<◌, ◌∷◌, ◌++◌, [], false, length, IfOk, IfSome, IsTrue};
ghost use Rattle.std.specs.List.{list_any, position_from};
ghost use Rattle.std.specs.Str.{bytes_eq};
ghost use Rattle.dsv_base.specs.Names.{is_user_name};
ghost use Rattle.http_front.specs.Logins.{user_number};
ghost use Rattle.http_front.specs.UsersFile.{most_users, names, AreNamed};

use crate::user::User;
use dsv_base::NoMemory;
use std::alloc::Global;
use std::collections::BTreeMap;
use std::marker::Model;

/// The most users that a users file may have.
pub(crate) const MOST_USERS: usize = 10_000;

/// The users who may log in. Contracts see them as the list of the users, in the file's order.
/// Each name is what [`dsv_base::is_user_name`] takes, and no two are the same. They have no Debug,
/// which would show passwords.
#[derive(Drop)]
pub struct Users {
    users: Vec<User>,
    places: BTreeMap<Vec<u8>, usize>,
}

impl Model for Users {
    ghost use Rattle.std.specs.Prelude.{List};
    ghost use Rattle.http_front.specs.declared.user.User.{User};
    ghost use Rattle.http_front.specs.UserPlaces.{IsIndexed};

    ghost Value = { List User };

    ghost view = { λ u. u.users.items };

    ghost invariant = { λ u. IsIndexed u.places (λ k. k.items) u.users.items };
}

impl Users {
    /// No users.
    pub(crate) fn none(alloc: Global) -> Users
        ensures { result ≡ [] }
    {
        Users {
            users: Vec::new(alloc),
            places: BTreeMap::new(alloc),
        }
    }

    /// These users and one more, who has a name of its own. The one error is want of memory.
    pub(crate) fn with(self, alloc: Global, user: User) -> Result<Users, NoMemory>
        requires room { length self < most_users }
        requires named { IsTrue (is_user_name user.name) }
        requires fresh { list_any (bytes_eq user.name) (names self) ≡ false }
        ensures { IfOk result (λ users. users ≡ self ++ user ∷ []) }
    {
        let Users {
            mut users,
            mut places,
        } = self;
        let name = Vec::from_slice(alloc, user.name.get())?;
        places.insert(name, users.len())?;
        users.push(user)?;
        Ok(Users { users, places })
    }

    /// Says to callers, who see no more of the users than the list, that each of its names is one
    /// of the users grammar.
    pub fn are_named(&self)
        ensures { AreNamed self.now }
    {
        let _users = &self.users;
    }

    pub(crate) fn len(&self) -> usize
        ensures { result ≡ length self.now }
    {
        self.users.len()
    }

    /// Whether one of them has this name.
    pub(crate) fn has(&self, name: &[u8]) -> bool
        ensures { result ≡ list_any (bytes_eq name.now) (names self.now) }
    {
        self.place(name).is_some()
    }

    /// The place of the user of this name, from 0.
    fn place(&self, name: &[u8]) -> Option<usize>
        ensures { result ≡ position_from (bytes_eq name.now) 0 (names self.now) }
    {
        self.places.get(name).copied()
    }

    /// The number of the user with this name and this password: the place in the file, from 1.
    pub(crate) fn user_number(&self, name: &[u8], password: &[u8]) -> Option<u32>
        ensures value { result ≡ user_number self.now name.now password.now }
        ensures named { IfSome result (λ number. IsTrue (is_user_name name.now)) }
    {
        let Some(place) = self.place(name) else {
            return None;
        };
        if password != self.users[place].password.get() {
            return None;
        }
        Some(place as u32 + 1)
    }
}

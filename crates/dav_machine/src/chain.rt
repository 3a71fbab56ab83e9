ghost use Rattle.std.specs.Prelude.{◌≡◌, IfOk, Some};
ghost use Rattle.std.specs.Option.{option_copied};
ghost use Rattle.dsv_base.specs.Gives.{Gives, GivesBy};
ghost use Rattle.dav_bodies.specs.Bodies.{body_read};
ghost use Rattle.dav_bodies.specs.declared.body_kind.BodyKind.TheVariants as kinds;
ghost use Rattle.dav_names.specs.Targets.{target};
ghost use Rattle.dav_replies.specs.Faults.{refusal_no_memory};
ghost use Rattle.dav_machine.specs.Chains.{or_bad_target, kind_of, by_method, viewer, by_login};
ghost use Rattle.dav_machine.specs.Chains.{propfind_headed, by_headers, propfind_asked, by_body};
ghost use Rattle.dav_machine.specs.Chains.{aim_of, by_rule, denied, permit_of, permitted, is_head_method, is_head};
ghost use Rattle.dav_machine.specs.Presents.{MayRead};

use crate::aim::aim_of;
use crate::asked::Asked;
use crate::client::client_of;
use crate::depth::Depth;
use crate::headed::Headed;
use crate::present::Present;
use dav_bodies::{Body, BodyFault, BodyKind, read_body};
use dav_names::{Resource, TargetFault, read_target};
use dav_replies::{AllowKind, Form, Method, Refusal};
use dsv_base::Path;
use http_front::{Login, Request};
use std::alloc::Global;

/// A request that target, method, headers, login, body and rule have let through.
#[derive(Debug, Drop)]
pub struct Permit<'a> {
    pub resource: Resource,
    pub asked: Asked,
    /// The name of the user, if somebody is logged in.
    pub user: Option<&'a [u8]>,
}

/// What the request asks for, or the first refusal that holds: target, method, headers, login, body,
/// rule.
#[tactic(auto, unfolding(crate::specs::Chains::permitted))]
pub fn permitted<'a>(
    alloc: Global,
    present: &Present,
    request: &'a Request,
) -> Result<Permit<'a>, Refusal>
    ensures value { GivesBy (λ p. permit_of p.resource p.asked) refusal_no_memory result
        (permitted present.now.trees.name present.now.rules request.now) }
    ensures user { IfOk result (λ p. option_copied p.user ≡ viewer request.now.login) }
    ensures readable { IfOk result
        (λ p. MayRead present.now (option_copied p.user) (aim_of p.asked p.resource).path) }
{
    let resource = by_target(alloc, present.root(), request.target.get())?;
    let kind = kind_of(&resource);
    let method = by_method(kind, request.method.get())?;
    let headed = by_headers(kind, method, request)?;
    let user = by_login(&request.login)?;
    let asked = by_body(alloc, headed, request)?;
    by_rule(present, user, aim_of(&asked, &resource).path)?;
    Ok(Permit {
        resource,
        asked,
        user,
    })
}

/// The resource that a target names.
fn by_target(alloc: Global, root: &[u8], text: &[u8]) -> Result<Resource, Refusal>
    ensures { Gives refusal_no_memory result (or_bad_target (target root.now text.now)) }
{
    match read_target(alloc, root, text) {
        Ok(resource) => Ok(resource),
        Err(TargetFault::BadTarget) => Err(Refusal::BadTarget),
        Err(TargetFault::NoMemory) => Err(Refusal::NoMemory),
    }
}

/// The row of methods that a resource takes.
fn kind_of(resource: &Resource) -> AllowKind
    ensures { result ≡ kind_of resource.now }
{
    match resource {
        Resource::Public(_) => AllowKind::Public,
        Resource::Me => AllowKind::Me,
        Resource::Rvr(_, _) => AllowKind::Rvr,
        Resource::RevOnly(_) => AllowKind::RevOnly,
        Resource::Txr(_, path) if path.text() == b"/".as_slice() => AllowKind::TxrRoot,
        Resource::Txr(_, _) => AllowKind::Txr,
        Resource::Txn(_) => AllowKind::Txn,
    }
}

/// The method of this name, which the resource has to take.
fn by_method(kind: AllowKind, name: &[u8]) -> Result<Method, Refusal>
    ensures { Gives refusal_no_memory result (by_method kind name.now) }
{
    match Method::read(name) {
        None => Err(Refusal::WrongMethod { allow: kind }),
        Some(method) => {
            if method.is_allowed(kind) {
                Ok(method)
            } else {
                Err(Refusal::WrongMethod { allow: kind })
            }
        }
    }
}

/// What the headers say by the method, of a resource of the kind. What isn't built yet is refused by
/// name.
fn by_headers(kind: AllowKind, method: Method, request: &Request) -> Result<Headed, Refusal>
    ensures { Gives refusal_no_memory result (by_headers kind method request.now) }
{
    match method {
        Method::Options => Ok(Headed::Options),
        Method::Get => Ok(Headed::Get),
        Method::Head => Ok(Headed::Head),
        Method::Propfind => propfind_headed(kind, request),
        Method::Report
        | Method::Post
        | Method::Put
        | Method::Mkcol
        | Method::Proppatch
        | Method::Delete
        | Method::Copy
        | Method::Merge
        | Method::Lock
        | Method::Unlock => Err(Refusal::NotInProfile { form: Form::Later }),
    }
}

/// What the headers of a PROPFIND of a resource of the kind say.
fn propfind_headed(kind: AllowKind, request: &Request) -> Result<Headed, Refusal>
    ensures { Gives refusal_no_memory result (propfind_headed kind request.now) }
{
    let depth = Depth::of(request)?;
    let children = depth.asks_children(kind)?;
    Ok(Headed::Propfind { children })
}

/// The name of the user, if somebody is logged in. A wrong login is refused before anything is looked at.
fn by_login(login: &Login) -> Result<Option<&[u8]>, Refusal>
    ensures value { GivesBy option_copied refusal_no_memory result (by_login login.now) }
    ensures user { IfOk result (λ user. option_copied user ≡ viewer login.now) }
{
    match login {
        Login::Nobody => Ok(None),
        Login::User(person) => Ok(Some(person.name.get())),
        Login::Wrong => Err(Refusal::NeedsLogin),
    }
}

/// What is asked for, by what the headers and the body say. It is read behind the login, so that nobody
/// with a wrong one makes work.
fn by_body(alloc: Global, headed: Headed, request: &Request) -> Result<Asked, Refusal>
    ensures { Gives refusal_no_memory result (by_body headed request.now) }
{
    match headed {
        Headed::Options => Ok(Asked::Options {
            client: client_of(request),
        }),
        Headed::Get => Ok(Asked::Get),
        Headed::Head => Ok(Asked::Head),
        Headed::Propfind { children } => propfind_asked(alloc, children, request.body.get()),
    }
}

/// A PROPFIND of what its body says, with the children or without.
fn propfind_asked(alloc: Global, children: bool, body: &[u8]) -> Result<Asked, Refusal>
    ensures { Gives refusal_no_memory result (propfind_asked children (body_read kinds.Propfind body.now)) }
{
    match read_body(alloc, BodyKind::Propfind, body) {
        Ok(Body::Propfind(wanted)) => Ok(Asked::Propfind { children, wanted }),
        Err(BodyFault::BadBody) => Err(Refusal::BadBody),
        Err(BodyFault::NotInProfile { form }) => Err(Refusal::NotInProfile { form }),
        Err(BodyFault::NoMemory) => Err(Refusal::NoMemory),
    }
}

/// The path, if there is one, which the user has to be allowed to read. The rule is asked before the tree
/// is looked at, so that a reader without the right learns nothing of what is there.
fn by_rule<'a>(
    present: &Present,
    user: Option<&[u8]>,
    path: Option<&'a Path>,
) -> Result<Option<&'a Path>, Refusal>
    ensures value { GivesBy option_copied refusal_no_memory result
        (by_rule present.now.rules present.now.trees.name (option_copied user.entry) (option_copied path.entry)) }
    ensures readable { IfOk result
        (λ p. MayRead present.now (option_copied user.entry) (option_copied path.entry)) }
{
    match path {
        None => Ok(None),
        Some(path) => {
            if present.can_read(user, path) {
                Ok(Some(path))
            } else {
                Err(denied(user))
            }
        }
    }
}

/// How a reader without the right is refused.
fn denied(user: Option<&[u8]>) -> Refusal
    ensures { result ≡ denied (option_copied user.entry) }
{
    match user {
        None => Refusal::NeedsLogin,
        Some(_) => Refusal::Denied,
    }
}

/// Whether the request is a HEAD, whose reply has no content (RFC 9110, section 9.3.2).
pub fn is_head(request: &Request) -> bool
    ensures { result ≡ is_head request.now }
{
    match Method::read(request.method.get()) {
        Some(method) => is_head_method(method),
        None => false,
    }
}

fn is_head_method(method: Method) -> bool
    ensures { result ≡ is_head_method (Some method) }
{
    method == Method::Head
}

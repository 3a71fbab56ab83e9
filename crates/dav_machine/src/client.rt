ghost use Rattle.std.specs.Prelude.{◌≡◌};
ghost use Rattle.std.specs.Option.{option_copied};
ghost use Rattle.dav_machine.specs.Clients.{client_by, client_of};

use dav_replies::Client;
use http_front::Request;

/// The client that a request comes from, by how it names itself: one of Subversion begins with `SVN/`
/// (RFC 9110, section 10.1.5).
#[tactic(auto, unfolding(crate::specs::Clients::client_of))]
pub fn client_of(request: &Request) -> Client
    ensures { result ≡ client_of request.now }
{
    client_by(request.first(b"User-Agent"))
}

fn client_by(agent: Option<&[u8]>) -> Client
    ensures { result ≡ client_by (option_copied agent.entry) }
{
    match agent {
        Some(name) if name.starts_with(b"SVN/") => Client::Guest,
        _ => Client::Plain,
    }
}

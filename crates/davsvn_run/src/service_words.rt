ghost use Rattle.std.specs.Prelude.{◌≡◌, ◌≤◌, IfSome};
ghost use Rattle.std.specs.List.{list_all};
ghost use Rattle.std.specs.Option.{option_and_then, option_copied, option_map};
ghost use Rattle.davsvn_run.specs.declared.verb.Verb.TheVariants as verbs;
ghost use Rattle.davsvn_run.specs.Commands.{command, needed, optional};
ghost use Rattle.davsvn_run.specs.Options.{read_options};
ghost use Rattle.davsvn_run.specs.Words.{script_in};
ghost use Rattle.davsvn_run.specs.Services.{Service, address_in, address_of, is_host, is_host_byte, number_between, script_of, serve_command, service, service_in, service_of, workers_told};

use crate::command::Command;
use crate::options::{has_double, value_of, words_after};
use crate::service::Service;
use crate::verb::Verb;
use crate::words::{file_names_of, pipe_command};
use dsv_base::{Bytes, cut_at, read_decimal};

/// The host, the port and the number of workers that the words ask for, where they are those of
/// `serve`.
///
/// `serve --script F --rules F --users F --listen HOST:PORT [--workers 1..64] [--each N]`: the options
/// stand in any order, each at most once. HOST has 1 to 255 letters, digits, `.` and `-`, PORT is 1 to
/// 65,535, N is 1 to 4,294,967,295, and all numbers are decimal without leading zeros. Without
/// `--workers` there are 8.
pub fn listen_address(words: &[Bytes]) -> Option<(&[u8], u16, u32)>
    ensures { option_map (λ address. (address.0.now, address.1, address.2)) result
        ≡ option_map address_in (service words.now) }
{
    match read_service(words) {
        Some(asked) => Some((asked.host, asked.port, asked.workers)),
        None => None,
    }
}

/// The name of the script, where the words are those of `serve` or of `pipe`.
pub fn script_of(words: &[Bytes]) -> Option<&[u8]>
    ensures { option_copied result ≡ script_of words.now }
{
    match read_service(words) {
        Some(asked) => Some(asked.files.script),
        None => script_of_pipe(words),
    }
}

/// The name of the script, where the words are those of `pipe`.
fn script_of_pipe(words: &[Bytes]) -> Option<&[u8]>
    ensures { option_copied result ≡ option_and_then script_in (command words.now) }
{
    let [verb, words @ ..] = words else {
        return None;
    };
    if verb.get() != b"pipe".as_slice() {
        return None;
    }
    match pipe_command(words) {
        Some(Command::Pipe(names)) => Some(names.script),
        _ => None,
    }
}

/// What the words ask for, where they are those of `serve`.
pub(crate) fn read_service(words: &[Bytes]) -> Option<Service<'_>>
    ensures value { option_map service_in result ≡ service words.now }
    ensures bound { IfSome result (λ asked. (1 ≤ asked.workers) × (asked.workers ≤ 64)) }
{
    let [verb, words @ ..] = words else {
        return None;
    };
    if verb.get() != b"serve".as_slice() {
        return None;
    }
    serve_command(words)
}

fn serve_command(words: &[Bytes]) -> Option<Service<'_>>
    ensures value { option_map service_in result ≡ serve_command (read_options verbs.Serve words.now) }
    ensures bound { IfSome result (λ asked. (1 ≤ asked.workers) × (asked.workers ≤ 64)) }
{
    let [] = words_after(Verb::Serve, words) else {
        return None;
    };
    if has_double(Verb::Serve, words) {
        return None;
    }
    service_of(words)
}

/// What the options of `serve` ask.
fn service_of(words: &[Bytes]) -> Option<Service<'_>>
    ensures value { option_map service_in result ≡ service_of (read_options verbs.Serve words.now).0 }
    ensures bound { IfSome result (λ asked. (1 ≤ asked.workers) × (asked.workers ≤ 64)) }
{
    let files = file_names_of(Verb::Serve, words)?;
    let (host, port) = address(value_of(Verb::Serve, words, b"--listen"))?;
    let workers = workers(value_of(Verb::Serve, words, b"--workers"))?;
    let each = each(value_of(Verb::Serve, words, b"--each"))?;
    Some(Service {
        files,
        host,
        port,
        workers,
        each,
    })
}

fn address(value: Option<&[u8]>) -> Option<(&[u8], u16)>
    ensures { option_map (λ address. (address.0.now, address.1)) result
        ≡ needed address_of (option_copied value.entry) }
{
    address_of(value?)
}

/// The host and the port of `HOST:PORT`.
#[tactic(auto, unfolding(crate::specs::Services::address_of))]
fn address_of(text: &[u8]) -> Option<(&[u8], u16)>
    ensures { option_map (λ address. (address.0.now, address.1)) result ≡ address_of text.now }
{
    let (host, port) = cut_at(text, b':')?;
    if !is_host(host) {
        return None;
    }
    let port = number_between(port, 1, 65_535)?;
    Some((host, port as u16))
}

#[tactic(auto, unfolding(crate::specs::Services::is_host))]
fn is_host(name: &[u8]) -> bool
    ensures { result ≡ is_host name.now }
{
    if name.is_empty() || name.len() > 255 {
        return false;
    }
    has_host_bytes(name)
}

fn has_host_bytes(name: &[u8]) -> bool
    ensures { result ≡ list_all is_host_byte name.now }
{
    name.iter()
        .all(|b| b.is_ascii_alphanumeric() || *b == b'.' || *b == b'-')
}

/// How many doors are served side by side: 8 where that isn't told; none where the value isn't 1 to 64.
fn workers(value: Option<&[u8]>) -> Option<u32>
    ensures value { result ≡ option_map workers_told (optional (number_between 1 64) (option_copied value.entry)) }
    ensures bound { IfSome result (λ workers. (1 ≤ workers) × (workers ≤ 64)) }
{
    match value {
        None => Some(8),
        Some(text) => Some(number_between(text, 1, 64)? as u32),
    }
}

/// How many connections each door takes at most, where that is told; none where the value is no u32
/// above 0.
fn each(value: Option<&[u8]>) -> Option<Option<u32>>
    ensures { result ≡ optional (number_between 1 4294967295) (option_copied value.entry) }
{
    match value {
        None => Some(None),
        Some(text) => Some(Some(number_between(text, 1, 4_294_967_295)? as u32)),
    }
}

/// The number that the text spells in decimal without leading zeros, if it is `least` to `most`.
#[tactic(auto, unfolding(crate::specs::Services::number_between))]
fn number_between(text: &[u8], least: u64, most: u64) -> Option<u64>
    ensures value { result ≡ number_between least most text.now }
    ensures bound { IfSome result (λ n. (least ≤ n) × (n ≤ most)) }
{
    match read_decimal(text, most) {
        Some(number) if least <= number => Some(number),
        Some(_) => None,
        None => None,
    }
}

ghost use Rattle.std.specs.Prelude.{IfOk};
ghost use Rattle.davsvn_run.specs.Services.{service};
ghost use Rattle.davsvn.specs.Doorways.{AreReady, workers_asked};

use crate::disk_files::wants_memory;
use crate::listening::Listening;
use crate::system_clock::SystemClock;
use davsvn_run::{Status, listen_address, script_of};
use dsv_base::Bytes;
use dsv_outside::Sink;
use std::io::Read;
use std::net::{Net, OpenListener, TcpListener};
use std::rt::Runtime;
use std::time::Duration;
use std::{fs, io};

/// The seconds for which a connection may give nothing, or take nothing, before it is ended.
const MOST_SILENT_SECONDS: u64 = 30;

/// The first bytes of a script, in which the repository's name stands.
const MOST_HEAD_BYTES: u64 = 128;

/// The status of a run that can't listen where it is told to: it is that of a file fault.
const LISTEN_FAULT: Status = Status(6);

/// What `serve` listens by: a door and a clock for each station.
#[derive(Drop)]
pub struct Stations<L, R> {
    pub doors: Vec<Listening<L, R>>,
    pub clocks: Vec<SystemClock<R>>,
}

#[tactic(auto, using(crate::proofs::Doorways::ready_for))]
/// Listens where the words of `serve` say. Other words give no station.
///
/// # Errors
/// The status of a run that can't listen there, whose line is put, or that wants memory.
pub fn listen<R: Runtime + Net + AllocGlobal, E: Sink>(
    rt: &R,
    words: &[Bytes],
    errors: &mut E,
) -> Result<Stations<R::Listener, R>, Status>
    ensures { IfOk result (λ stations. AreReady (workers_asked (service words.now)) stations.doors.items
        stations.clocks.items) }
{
    let Some((host, port, number)) = listen_address(words) else {
        return Ok(no_stations(rt));
    };
    match stations_at(rt, words, host, port, number) {
        Ok(stations) => Ok(stations),
        Err(error) if wants_memory(&error) => Err(Status::NO_MEMORY),
        Err(_) => Err(listen_fault(rt, words, errors)),
    }
}

/// So many stations at this address, of which the first says that they serve.
fn stations_at<R: Runtime + Net + AllocGlobal>(
    rt: &R,
    words: &[Bytes],
    host: &[u8],
    port: u16,
    number: u32,
) -> io::Result<Stations<R::Listener, R>>
    ensures { IfOk result (λ stations. AreReady number stations.doors.items stations.clocks.items) }
{
    let host = std::str::from_utf8(host).unwrap_or("");
    let listener = TcpListener::bind(rt, (host, port))?;
    stations_of(rt, &listener, number, serving_line(rt, words, host, port))
}

/// Puts the line of a run that can't listen where the words of `serve` say, and gives its status.
pub fn listen_fault<R: AllocGlobal, E: Sink>(rt: &R, words: &[Bytes], errors: &mut E) -> Status {
    let (host, port, _) = listen_address(words).unwrap_or((b"", 0, 0));
    let host = std::str::from_utf8(host).unwrap_or("");
    // a line that can't be put changes nothing
    if let Ok(line) = format!(in rt.alloc(); "davsvn: listen fault: {host}:{port}\n") {
        errors.put(line.as_bytes());
    }
    LISTEN_FAULT
}

/// No station.
fn no_stations<L, R: AllocGlobal>(rt: &R) -> Stations<L, R>
    ensures { AreReady 0 result.doors.items result.clocks.items }
{
    Stations {
        doors: Vec::new(rt.alloc()),
        clocks: Vec::new(rt.alloc()),
    }
}

/// So many stations over one listener, of which the first puts the line. A connection of theirs may be
/// silent for 30 seconds.
#[tactic(auto, using(crate::proofs::Doorways::one_more, crate::proofs::Doorways::none_ready))]
pub fn stations_of<L: OpenListener + Drop, R: Runtime + AllocGlobal>(
    rt: &R,
    listener: &L,
    number: u32,
    mut line: Option<String>,
) -> io::Result<Stations<L, R>>
    ensures { IfOk result (λ stations. AreReady number stations.doors.items stations.clocks.items) }
{
    let mut doors = Vec::new(rt.alloc());
    let mut clocks = Vec::new(rt.alloc());
    'stations: for _ in 0..number {
        let silence = Duration::from_secs(MOST_SILENT_SECONDS);
        doors.push(Listening::new(listener.try_clone()?, rt.clone()?, silence, line.take()))?;
        clocks.push(SystemClock::new(rt.clone()?))?;
    }
    Ok(Stations { doors, clocks })
}

/// What is said once connections are taken: the script, and where its repository is. There is none
/// where the name can't be read, or for want of memory.
fn serving_line<R: Runtime + AllocGlobal>(
    rt: &R,
    words: &[Bytes],
    host: &str,
    port: u16,
) -> Option<String> {
    let script = std::str::from_utf8(script_of(words)?).ok()?;
    let mut head = Vec::new(rt.alloc());
    let file = fs::open(rt, script).ok()?;
    file.take(MOST_HEAD_BYTES).read_to_end(&mut head).ok()?;
    let text = std::str::from_utf8(head.as_slice()).ok()?;
    let name = text.lines().nth(1)?.strip_prefix("repos ")?;
    format!(in rt.alloc(); "davsvn: serves {script} at http://{host}:{port}/svn/{name}\n").ok()
}

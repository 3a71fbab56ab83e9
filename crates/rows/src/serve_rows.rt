ghost use Rattle.std.specs.Prelude.{◌≡◌, All, IfOk, false, true};
ghost use Rattle.davsvn_run.specs.ServiceRuns.{IsManned};
ghost use Rattle.davsvn_run.specs.Services.{service};

use crate::connections::{Connection, connection_named, end_word, served_otherwise, take_line};
use crate::run_rows::{
    clock_of, files_of, keeper_of, kept_differs, sink_of, status_differs, text_differs, words_of,
};
use anyhow::{Result, bail};
use davsvn_run::{Served, listen_address, run_serve};
use dsv_base::{Bytes, decimal_text};
use dsv_outside::{DoorRecord, MemClock, MemDoor, MemFiles, MemKeeper, MemSink};
use row_files::{Book, Line, Row, difference, numbers_in};
use std::alloc::Global;
use std::sync::Wait;
use std::thread::Threads;

/// A door of a row: the connections that come in by it, in order, and the numbers of its calls that fail.
#[derive(Drop)]
struct Doorway {
    connections: Vec<Connection>,
    fails: Vec<u64>,
}

/// Where a row of `serve` differs, if anywhere: connections come in by doors in memory, one worker at each,
/// and `run_serve` ends when all doors are shut.
pub fn check_serve<R: Threads + Wait + Sync + Send + Clone + Drop>(
    rt: &R,
    alloc: Global,
    book: &Book,
    row: &Row,
) -> Result<Option<String>> {
    let doorways = doorways_of(alloc, book, row)?;
    let mut errors = sink_of(alloc, row, "errors fail")?;
    let served = serve(rt, alloc, book, row, doorways.as_slice(), &mut errors)?;
    let found = ended_otherwise(alloc, book, row, &served, &errors)?;
    if found.is_some() {
        return Ok(found);
    }
    let found = doors_differ(alloc, doorways.as_slice(), served.doors.as_slice())?;
    if found.is_some() {
        return Ok(found);
    }
    hub_differs(alloc, book, row, served)
}

/// The doors that a row tells, each begun by a line `door: NAME`.
fn doorways_of(alloc: Global, book: &Book, row: &Row) -> Result<Vec<Doorway>> {
    let mut doorways = Vec::new(alloc);
    'lines: for line in &row.lines {
        if line.key.as_str() == "door" {
            doorways.push(Doorway {
                connections: Vec::new(alloc),
                fails: Vec::new(alloc),
            })?;
        } else if let Some(doorway) = doorways.last_mut() {
            take_door_line(alloc, book, doorway, line)?;
        }
    }
    Ok(doorways)
}

/// Takes what a line tells of a door, or of the last of its connections.
fn take_door_line(alloc: Global, book: &Book, doorway: &mut Doorway, line: &Line) -> Result<()> {
    match line.key.as_str() {
        "connection" => {
            let connection = connection_named(alloc, line.value.as_str())?;
            doorway.connections.push(connection)?;
        }
        "door fails" => doorway.fails = numbers_in(alloc, line.value.as_str())?,
        _ => {
            if let Some(connection) = doorway.connections.last_mut() {
                take_line(alloc, book, connection, line)?;
            }
        }
    }
    Ok(())
}

fn serve<R: Threads + Wait + Sync + Send + Clone + Drop>(
    rt: &R,
    alloc: Global,
    book: &Book,
    row: &Row,
    doorways: &[Doorway],
    errors: &mut MemSink,
) -> Result<Served<MemDoor, MemKeeper>> {
    let words = words_of(alloc, book, row.value("words"))?;
    let mut files: MemFiles = files_of(alloc, book, row)?;
    let doors = doors_of(alloc, doorways)?;
    let clocks = clocks_of(alloc, row, doorways.len())?;
    let keeper = keeper_of(alloc, row)?;
    if !is_manned(words.as_slice(), doors.len(), clocks.len()) {
        bail!("not as many doors as workers");
    }
    Ok(run_serve(
        alloc,
        rt,
        words.as_slice(),
        doors,
        clocks,
        &mut files,
        keeper,
        errors,
    ))
}

/// Whether there are as many doors and clocks as the words ask for, where they are those of `serve`.
fn is_manned(words: &[Bytes], doors: usize, clocks: usize) -> bool
    ensures { result ≡ true → IsManned (service words.now) doors clocks }
{
    match listen_address(words) {
        Some((_host, _port, workers)) => {
            doors as u64 == u64::from(workers) && clocks as u64 == u64::from(workers)
        }
        None => true,
    }
}

/// A door in memory for each of these.
fn doors_of(alloc: Global, doorways: &[Doorway]) -> Result<Vec<MemDoor>>
    ensures { IfOk result (λ doors. All (λ d. d.door.out ≡ false) doors.items) }
{
    let mut doors = Vec::new(alloc);
    'doors: for doorway in doorways {
        let door = door_of(alloc, doorway)?;
        doors.push(door)?;
    }
    Ok(doors)
}

fn door_of(alloc: Global, doorway: &Doorway) -> Result<MemDoor>
    ensures { IfOk result (λ door. door.door.out ≡ false) }
{
    let inputs = inputs_of(alloc, doorway)?;
    let door = MemDoor::new(inputs, doorway.fails.clone()?)?;
    Ok(door)
}

fn inputs_of(alloc: Global, doorway: &Doorway) -> Result<Vec<Bytes>> {
    let mut inputs = Vec::new(alloc);
    'connections: for connection in &doorway.connections {
        inputs.push(Bytes::of(alloc, connection.input.as_slice())?)?;
    }
    Ok(inputs)
}

/// A clock for each worker, of the moments that the row tells.
fn clocks_of(alloc: Global, row: &Row, count: usize) -> Result<Vec<MemClock>> {
    let mut clocks = Vec::new(alloc);
    'clocks: for _ in 0..count {
        clocks.push(clock_of(alloc, row)?)?;
    }
    Ok(clocks)
}

fn ended_otherwise(
    alloc: Global,
    book: &Book,
    row: &Row,
    served: &Served<MemDoor, MemKeeper>,
    errors: &MemSink,
) -> Result<Option<String>> {
    let found = status_differs(alloc, row, served.status)?;
    if found.is_some() {
        return Ok(found);
    }
    text_differs(alloc, book, row, "line", errors.taken())
}

fn doors_differ(alloc: Global, doorways: &[Doorway], doors: &[MemDoor]) -> Result<Option<String>> {
    if doors.len() != doorways.len() {
        bail!("doors are lost");
    }
    'doors: for (doorway, door) in doorways.iter().zip(doors) {
        let found = door_differs(alloc, doorway.connections.as_slice(), door.returned())?;
        if found.is_some() {
            return Ok(found);
        }
    }
    Ok(None)
}

/// Where other connections went back to a door than the row tells, if anywhere.
fn door_differs(
    alloc: Global,
    connections: &[Connection],
    records: &[DoorRecord],
) -> Result<Option<String>> {
    let wanted = decimal_text(alloc, connections.len() as u64)?;
    let came = decimal_text(alloc, records.len() as u64)?;
    let found = difference(alloc, "connections", wanted.get(), came.get())?;
    if found.is_some() {
        return Ok(found);
    }
    'connections: for (connection, record) in connections.iter().zip(records) {
        let end = end_word(record.end());
        let found = served_otherwise(alloc, connection, record.taken(), end)?;
        if found.is_some() {
            return Ok(found);
        }
    }
    Ok(None)
}

/// Where the hub that served was kept otherwise than the row tells: it comes back with status 0 alone.
fn hub_differs(
    alloc: Global,
    book: &Book,
    row: &Row,
    served: Served<MemDoor, MemKeeper>,
) -> Result<Option<String>> {
    let Served {
        status,
        doors: _,
        hub,
    } = served;
    match hub {
        Some(hub) => {
            let (_, keeper) = hub.end();
            kept_differs(alloc, book, row, keeper.kept())
        }
        None if status.0 == 0 => bail!("the hub is lost"),
        None => Ok(None),
    }
}

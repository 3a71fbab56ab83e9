ghost use Rattle.std.specs.Prelude.{◌≡◌, All, MatchResult, length, false, ◌≤◌};
ghost use Rattle.dsv_outside.specs.Causes.{Rose};
ghost use Rattle.dsv_outside.specs.DoorStates.{DoorState};
ghost use Rattle.davsvn_run.specs.declared.end.End.{End};
ghost use Rattle.davsvn_run.specs.ServedDoors.{ServedDoors};
ghost use Rattle.davsvn_run.specs.ServiceRuns.{IsManned, ServeSays};
ghost use Rattle.davsvn_run.specs.Services.{service};
ghost use Rattle.davsvn_run.specs.Statuses.{TookLine, end_line, number_of};
ghost use Rattle.dav_machine.specs.Hubs.{new_hub};
ghost use Rattle.hub_turn.specs.Cores.{hub_told};

use crate::end::End;
use crate::inputs::{Inputs, open_inputs};
use crate::pipe::open_hub;
use crate::served::Served;
use crate::service_words::read_service;
use crate::serving_doors::serve_doors;
use crate::status::{put_line, status_of};
use dav_machine::Hub;
use dsv_base::Bytes;
use dsv_outside::{Clock, Door, Files, Keeper, Sink};
use std::alloc::Global;
use std::sync::Wait;
use std::thread::Threads;

/// Does all that the command `serve` does: reads and checks the three files that the words name, and
/// then serves the doors side by side, each in a thread of its own and by the clock of its place, over
/// one machine.
///
/// It needs as many doors and clocks as workers are asked for ([`listen_address`](crate::listen_address)
/// tells how many), and no door may have a connection out. The doors come back in their order.
///
/// The status is 0 (each door is shut, has failed, or gave as many connections as `--each` says), 1
/// (other words), 2 (a file breaks its grammar), 6 (a fault of the files) or 8 (want of memory). With 0
/// the machine comes back; with another no door was asked, and the keeper is dropped. The errors take
/// the status's line.
pub fn run_serve<D, C, F: Files, P, E: Sink, R>(
    alloc: Global,
    rt: &R,
    words: &[Bytes],
    doors: Vec<D>,
    clocks: Vec<C>,
    files: &mut F,
    keeper: P,
    errors: &mut E,
) -> Served<D, P>
where
    D: Door + Drop + Send,
    C: Clock + Drop + Send,
    P: Keeper + Drop + Send,
    R: Threads + Wait + Sync + Send + Clone + Drop,
    requires manned { IsManned (service words.now) (length doors.items) (length clocks.items) }
    requires none_out { All (λ d. (D.state d).out ≡ false) doors.items }
    // the run has an end, whose number is the status, and which came about as the words' own table of ends says
    ensures says { (end : End) × (result.status.0 ≡ number_of end)
        × TookLine (E.taken errors.old) (E.taken errors.new) (end_line end)
        (Rose (E.faults errors.old) (E.faults errors.new))
        × ServeSays P.faults P.kept D.state D.faults C.readings (service words.now) (F.contents files.old)
        (Rose (F.faults files.old) (F.faults files.new)) keeper doors.items clocks.items
        result.doors.items result.hub end }
    ensures contents { F.contents files.new ≡ F.contents files.old }
{
    let (end, doors, hub) = serve_words(alloc, rt, words, doors, clocks, files, keeper);
    put_line(alloc, &end, errors);
    Served {
        status: status_of(&end),
        doors,
        hub,
    }
}

/// All that a run of `serve` does but for the line to errors.
fn serve_words<D, C, F: Files, P, R>(
    alloc: Global,
    rt: &R,
    words: &[Bytes],
    doors: Vec<D>,
    clocks: Vec<C>,
    files: &mut F,
    keeper: P,
) -> (End, Vec<D>, Option<Hub<P>>)
where
    D: Door + Drop + Send,
    C: Clock + Drop + Send,
    P: Keeper + Drop + Send,
    R: Threads + Wait + Sync + Send + Clone + Drop,
    requires manned { IsManned (service words.now) (length doors.items) (length clocks.items) }
    requires none_out { All (λ d. (D.state d).out ≡ false) doors.items }
    ensures says { ServeSays P.faults P.kept D.state D.faults C.readings (service words.now) (F.contents files.old)
        (Rose (F.faults files.old) (F.faults files.new)) keeper doors.items clocks.items
        result.1.items result.2 result.0 }
    ensures contents { F.contents files.new ≡ F.contents files.old }
{
    let asked = match read_service(words) {
        Some(asked) => asked,
        None => return (End::Usage, doors, None),
    };
    let inputs = match open_inputs(alloc, asked.files, files) {
        Ok(inputs) => inputs,
        Err(end) => return (end, doors, None),
    };
    match serve_inputs(alloc, rt, inputs, keeper, doors, clocks, asked.each) {
        Ok((doors, hub)) => (End::Well, doors, Some(hub)),
        Err(doors) => (End::NoMemory, doors, None),
    }
}

/// Serves the doors over a machine on these inputs.
///
/// # Errors
/// Want of memory gives the doors back as they were; no door was asked.
fn serve_inputs<D, C, P, R>(
    alloc: Global,
    rt: &R,
    inputs: Inputs,
    keeper: P,
    doors: Vec<D>,
    clocks: Vec<C>,
    limit: Option<u32>,
) -> Result<(Vec<D>, Hub<P>), Vec<D>>
where
    D: Door + Drop + Send,
    C: Clock + Drop + Send,
    P: Keeper + Drop + Send,
    R: Threads + Wait + Sync + Send + Clone + Drop,
    requires some { 1 ≤ length doors.items }
    requires few { length doors.items ≤ 64 }
    requires clocks { length clocks.items ≡ length doors.items }
    requires none_out { All (λ d. (D.state d).out ≡ false) doors.items }
    ensures { MatchResult result
        (λ served. ServedDoors (hub_told P.faults P.kept) D.state D.faults C.readings inputs.users limit
        (length doors.items)
        (new_hub inputs.trees (record { rules = inputs.rules.list; name = inputs.trees.name }) keeper)
        doors.items clocks.items served.0.items served.1)
        (λ back. back.items ≡ doors.items) }
{
    let Inputs {
        trees,
        rules,
        users,
    } = inputs;
    let hub = match open_hub(alloc, trees, &rules, keeper) {
        Ok(hub) => hub,
        Err(_) => return Err(doors),
    };
    serve_doors(alloc, rt, hub, doors, clocks, limit, &users)
}

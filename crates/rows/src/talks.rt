use crate::connections::{Connection, connection_named, end_word, served_otherwise, take_line};
use crate::cut::{CutSource, Cutting};
use crate::run_rows::{clock_of, cuttings_of, keeper_of, kept_differs, source_of};
use anyhow::{Result, bail};
use authz_check::Policy;
use authz_file::Rules;
use dav_machine::{Hub, Solo};
use dav_serve::serve_connection;
use dsv_outside::{MemClock, MemKeeper, MemSink};
use http_front::Users;
use rev_trees::Trees;
use row_files::{Book, Row};
use row_inputs::{rules_of, trees_of, users_of};
use std::alloc::Global;

/// Where a conversation differs, if anywhere: several connections over one hub, each served to its end
/// before the next, with their inputs whole, then byte by byte, and cut at every place where the row
/// asks for that.
pub fn check_talk(alloc: Global, book: &Book, row: &Row) -> Result<Option<String>> {
    let connections = connections_of(alloc, book, row)?;
    let mut longest = 0usize;
    'connections: for connection in &connections {
        longest = longest.max(connection.input.len());
    }
    'cuttings: for cutting in cuttings_of(alloc, row, longest)? {
        let difference = check_once(alloc, book, row, connections.as_slice(), cutting)?;
        if difference.is_some() {
            return Ok(difference);
        }
    }
    Ok(None)
}

/// The connections that a row tells, each begun by a line `connection: NAME`.
fn connections_of(alloc: Global, book: &Book, row: &Row) -> Result<Vec<Connection>> {
    let mut connections = Vec::new(alloc);
    'lines: for line in &row.lines {
        if line.key.as_str() == "connection" {
            connections.push(connection_named(alloc, line.value.as_str())?)?;
        } else if let Some(connection) = connections.last_mut() {
            take_line(alloc, book, connection, line)?;
        }
    }
    Ok(connections)
}

/// Serves the connections, one after another.
fn check_once(
    alloc: Global,
    book: &Book,
    row: &Row,
    connections: &[Connection],
    cutting: Cutting,
) -> Result<Option<String>> {
    let mut served = served_of(alloc, book, row, cutting)?;
    let found = serve_all(alloc, &mut served, connections)?;
    if found.is_some() {
        return Ok(found);
    }
    let (_, keeper) = served.solo.end().end();
    kept_differs(alloc, book, row, keeper.kept())
}

/// What connections are served by.
#[derive(Drop)]
struct Served {
    users: Users,
    clock: MemClock,
    solo: Solo<MemKeeper>,
    cutting: Cutting,
}

fn served_of(alloc: Global, book: &Book, row: &Row, cutting: Cutting) -> Result<Served> {
    let users = users_in(alloc, book, row)?;
    let clock = clock_of(alloc, row)?;
    let hub = hub_of(alloc, book, row)?;
    Ok(Served {
        users,
        clock,
        solo: Solo::new(hub),
        cutting,
    })
}

fn users_in(alloc: Global, book: &Book, row: &Row) -> Result<Users> {
    let file = row.bytes(alloc, book, "file users")?;
    Ok(users_of(alloc, file.as_slice())?)
}

fn trees_in(alloc: Global, book: &Book, row: &Row) -> Result<Trees> {
    let file = row.bytes(alloc, book, "file script")?;
    Ok(trees_of(alloc, file.as_slice())?)
}

fn rules_in(alloc: Global, book: &Book, row: &Row) -> Result<Rules> {
    let file = row.bytes(alloc, book, "file rules")?;
    Ok(rules_of(alloc, file.as_slice())?)
}

/// A hub over the row's files `script` and `rules`.
fn hub_of(alloc: Global, book: &Book, row: &Row) -> Result<Hub<MemKeeper>> {
    let keeper = keeper_of(alloc, row)?;
    let rules = rules_in(alloc, book, row)?;
    hub_over(alloc, trees_in(alloc, book, row)?, &rules, keeper)
}

fn hub_over(
    alloc: Global,
    trees: Trees,
    rules: &Rules,
    keeper: MemKeeper,
) -> Result<Hub<MemKeeper>> {
    let policy = Policy::new(alloc, rules, trees.name())?;
    match Hub::new(alloc, trees, policy, keeper) {
        Ok(hub) => Ok(hub),
        Err(_) => bail!("no memory"),
    }
}

fn serve_all(
    alloc: Global,
    served: &mut Served,
    connections: &[Connection],
) -> Result<Option<String>> {
    'connections: for connection in connections {
        let found = serve(alloc, served, connection)?;
        if found.is_some() {
            return Ok(found);
        }
    }
    Ok(None)
}

/// Serves one connection, and says where it differs.
fn serve(alloc: Global, served: &mut Served, connection: &Connection) -> Result<Option<String>> {
    let mut sink = sink_failing(alloc, connection)?;
    let mut source = source_failing(alloc, connection, served.cutting)?;
    let end = serve_connection(
        alloc,
        &mut served.solo,
        &mut source,
        &mut sink,
        &mut served.clock,
        &served.users,
    );
    served_otherwise(alloc, connection, sink.taken(), end_word(end))
}

fn sink_failing(alloc: Global, connection: &Connection) -> Result<MemSink> {
    let failing = connection.sink_fails.clone()?;
    Ok(MemSink::new(Vec::new(alloc), failing))
}

fn source_failing(alloc: Global, connection: &Connection, cutting: Cutting) -> Result<CutSource> {
    let failing = connection.source_fails.clone()?;
    let source = source_of(alloc, connection.input.as_slice(), failing)?;
    Ok(CutSource { source, cutting })
}

ghost use Rattle.std.specs.Prelude.{◌≡◌, IfOk, length, reverse};
ghost use Rattle.node_table.specs.Tables.{IsSoundTable};
ghost use Rattle.tree_edits.specs.AreEdits.{AreEdits};
ghost use Rattle.tree_settling.specs.Listed.{AreBehind};
ghost use Rattle.tree_settling.specs.Settled.{edits_of, Settles, AreOfEdits, IsOnTable, IsMadeOf, AreSettled, IsSettled, root_made};

use crate::adding::add;
use crate::made::Made;
use dsv_base::{NoMemory, Rev};
use rev_nodes::{Cell, NodeId};
use std::alloc::Global;
use tree_edits::{Edits, Touch};

/// The cells that edits of a revision come to behind those of the table, and the root that shows
/// them. Without edits there are none, and the root is the old one. Its one error is want of memory.
pub fn settle(
    alloc: Global,
    cells: &[Cell],
    edits: &Edits,
    rev: Rev,
) -> Result<(Vec<Cell>, NodeId), NoMemory>
    requires { AreEdits rev cells.now edits.now }
    ensures { IfOk result (λ all. IsSettled rev cells.now edits.now all.0.items all.1) }
{
    let touches = edits.touches(alloc)?;
    settle_touches(alloc, cells, edits.root(), touches.as_slice())
}

/// The same of a root and the paths that edits over its tree touched.
fn settle_touches(
    alloc: Global,
    cells: &[Cell],
    root: NodeId,
    touches: &[Touch],
) -> Result<(Vec<Cell>, NodeId), NoMemory>
    requires sound { IsSoundTable cells.now }
    requires touched { AreOfEdits cells.now touches.now }
    ensures { IfOk result (λ all. Settles cells.now (edits_of root touches.now) all.0.items all.1) }
{
    let mut more = Vec::new(alloc);
    let made = settle_all(alloc, cells, &mut more, touches)?;
    let root = root_made(made.as_slice(), root);
    Ok((more, root))
}

/// Adds the cells of all touched places, and gives what was made of each path, the last one first.
fn settle_all<'a>(
    alloc: Global,
    cells: &[Cell],
    more: &mut Vec<Cell>,
    touches: &[Touch<'a>],
) -> Result<Vec<Made<'a>>, NoMemory>
    requires none { length more.old.items ≡ 0 }
    requires sound { IsSoundTable cells.now }
    requires touched { AreOfEdits cells.now touches.now }
    ensures { IfOk result (λ made.
        AreSettled cells.now touches.now more.new.items touches.now (reverse made.items)) }
{
    let mut made = Vec::with_capacity(alloc, touches.len())?;
    let mut left = touches.len();
    'touches: while left > 0 {
        left -= 1;
        let one = settle_one(alloc, cells, more, made.as_slice(), &touches[left])?;
        made.push(one)?;
    }
    Ok(made)
}

/// Makes what one touched path comes to, of which all below it was made before.
fn settle_one<'a>(
    alloc: Global,
    cells: &[Cell],
    more: &mut Vec<Cell>,
    made: &[Made<'a>],
    touch: &Touch<'a>,
) -> Result<Made<'a>, NoMemory>
    requires sound { IsSoundTable cells.now }
    requires on { IsOnTable cells.now touch.now.1 }
    requires behind { AreBehind touch.now.0 (reverse made.now) }
    ensures { IfOk result (λ one.
        IsMadeOf cells.now (reverse made.now) touch.now.0 touch.now.1 more.old.items more.new.items one) }
{
    match touch.held() {
        None => Ok(Made::of(touch.path(), None)),
        Some(held) => {
            let id = add(alloc, cells, more, made, touch.path(), held)?;
            Ok(Made::of(touch.path(), Some(id)))
        }
    }
}

/// What was made of `/`, or the old root where it wasn't touched.
fn root_made(made: &[Made], root: NodeId) -> NodeId
    ensures { result ≡ root_made (reverse made.now) root }
{
    match made {
        [.., last] if last.at() == b"/".as_slice() => match last.id() {
            Some(id) => id,
            None => root,
        },
        _ => root,
    }
}

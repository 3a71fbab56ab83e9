ghost use Rattle.std.specs.Prelude.{◌≡◌, vec_len, IfSome};
ghost use Rattle.std.specs.Arc.{arc_value};
ghost use Rattle.hub_turn.specs.Passes.{IsBoard};
ghost use Rattle.hub_turn.specs.Rooms.{Only};

use crate::board::Board;
use crate::cores::Core;
use std::alloc::Global;
use std::marker::Model;
use std::sync::Arc;

/// What a pass needs beside its seat. Contracts see which table it is of.
#[derive(Drop)]
pub struct Room<H: Core + Drop, R> {
    pub(crate) board: Arc<Board<H>, Global>,
    pub(crate) rt: R,
}

impl<H: Core + Drop, R> Model for Room<H, R> {
    ghost use Rattle.std.specs.Arc.{arc_value};
    ghost use Rattle.atomic_table.specs.Seated.{TableId, table_id_coded};
    ghost use Rattle.hub_turn.specs.Passes.{IsBoard};

    ghost Value = { TableId };

    ghost coded = { table_id_coded };

    ghost view = { λ r. (arc_value r.board).shared.table_id };

    ghost invariant = { λ r. IsBoard (arc_value r.board).shared.table_id };
}

/// So many rooms.
pub(crate) fn rooms<H: Core + Drop, R: Clone + Drop>(
    alloc: Global,
    rt: &R,
    board: &Arc<Board<H>, Global>,
    count: usize,
) -> Option<Vec<Room<H, R>>>
    requires { IsBoard (arc_value board.now).shared.table_id }
    ensures only { IfSome result (λ rooms. Only (arc_value board.now).shared.table_id rooms.items) }
    ensures length { IfSome result (λ rooms. vec_len rooms ≡ count) }
{
    let mut rooms = match Vec::with_capacity(alloc, count) {
        Ok(rooms) => rooms,
        Err(_) => return None,
    };
    for _ in 0..count {
        let theirs = match rt.clone() {
            Ok(theirs) => theirs,
            Err(_) => return None,
        };
        let shared = match Arc::try_clone(board) {
            Ok(shared) => shared,
            Err(_) => return None,
        };
        let room = Room {
            board: shared,
            rt: theirs,
        };
        rooms.push_reserved(room);
    }
    Some(rooms)
}

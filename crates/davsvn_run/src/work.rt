ghost use Rattle.std.specs.Prelude.{◌≡◌};
ghost use Rattle.davsvn_run.specs.Commands.{command};
ghost use Rattle.davsvn_run.specs.Runs.{WorkSays};
ghost use Rattle.davsvn_run.specs.Worlds.{IsUnreported, KeepsNothing};

use crate::asking::access_of;
use crate::command::Command;
use crate::end::End;
use crate::pipe::pipe;
use crate::words::read_words;
use crate::world::World;
use dsv_base::{Bytes, NoMemory};
use dsv_outside::{Clock, Files, Keeper, Sink, Source};
use std::alloc::Global;

/// All that a run does but for the line to errors.
pub fn work<S: Source, K: Sink, E: Sink, C: Clock, F: Files, P: Keeper>(
    alloc: Global,
    words: &[Bytes],
    world: World<S, K, E, C, F, P>,
) -> (End, World<S, K, E, C, F, P>)
    ensures says { WorkSays (command words.now) world result.1 result.0 }
    ensures contents { result.1.told.contents ≡ world.told.contents }
    ensures kept { KeepsNothing world.told result.1.told }
    ensures unreported { IsUnreported world result.1 }
{
    match read_words(alloc, words) {
        Ok(Some(Command::Pipe(names))) => pipe(alloc, names, world),
        Ok(Some(Command::AccessOf(question, path))) => access_of(alloc, question, &path, world),
        Ok(None) => (End::Usage, world),
        Err(NoMemory) => (End::NoMemory, world),
    }
}

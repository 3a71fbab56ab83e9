ghost use Rattle.std.specs.Prelude.{◌≡◌, ◌↔◌, ◌⊎◌, None};
ghost use Rattle.davsvn_run.specs.declared.end.End.{End};
ghost use Rattle.davsvn_run.specs.Commands.{command};
ghost use Rattle.davsvn_run.specs.Opening.{AreOpen};
ghost use Rattle.davsvn_run.specs.Runs.{ForPipe, WorkSays};
ghost use Rattle.davsvn_run.specs.Statuses.{number_of, IsReported};
ghost use Rattle.davsvn_run.specs.Whole.{AreWhole};
ghost use Rattle.davsvn_run.specs.Worlds.{IsUnread, IsUntouched, KeepsNothing, HasFault};

use crate::status::{Status, put_line, status_of};
use crate::work::work;
use crate::world::World;
use dsv_base::Bytes;
use dsv_outside::{Clock, Files, Keeper, Sink, Source};
use std::alloc::Global;

/// Does all that the program does: takes the words of the command line and the world, and gives the
/// world back with the exit status.
///
/// `pipe --script F --rules F --users F` reads and checks the three files in this order, and then
/// serves one connection: requests from the source, each of whose replies goes to the sink. Each
/// input is read only where those before it are of their forms.
///
/// `accessof --rules F --repos NAME [--user NAME] [--is no|r|rw] [--recursive] PATH` reads and checks
/// the rules, and puts the right to the sink: `no`, `r` or `rw` and LF.
///
/// The options stand in any order. The status is 0 (done), 1 (other words), 2 (a file breaks its
/// grammar), 3 (the input ended inside a request), 4, 5 and 6 (a fault of the source, the sink, a
/// file), 8 (want of memory) or 9 (the right isn't that of `--is`). The errors take the status's
/// line.
///
/// What the clauses say of what files, source, sink and clock hold they say where these tell it; the
/// objects in memory do.
pub fn run<S: Source, K: Sink, E: Sink, C: Clock, F: Files, P: Keeper>(
    alloc: Global,
    words: &[Bytes],
    world: World<S, K, E, C, F, P>,
) -> (Status, World<S, K, E, C, F, P>)
    // the run has an end, whose number is the status, whose line the errors took, and which came about
    // as the command's own table of ends says
    ensures says { (end : End) × (result.0.0 ≡ number_of end) × IsReported end world result.1
        × WorkSays (command words.now) world result.1 end }
    // 1: exactly where the words are none of the program's
    ensures usage { (result.0.0 ≡ 1) ↔ (command words.now ≡ None) }
    // .. and then nothing but the errors is touched
    ensures untouched { command words.now ≡ None → IsUntouched world result.1 }
    // source and clock are touched only by `pipe`, and only where the three files are of their forms
    ensures reached { IsUnread world result.1 ⊎ ForPipe (command words.now) (AreOpen world.told.contents) }
    // the keeper tells what it told, since as yet no request changes anything
    ensures kept { KeepsNothing world.told result.1.told }
    ensures contents { result.1.told.contents ≡ world.told.contents }
    // `pipe` over three files of their forms and whole requests, without a fault, is done, or wants memory
    ensures complete { ForPipe (command words.now) (AreWhole world.told.contents world.told.left) →
        ¬ (HasFault world.told result.1.told) → (result.0.0 ≡ 0) ⊎ (result.0.0 ≡ 8) }
{
    let (end, mut world) = work(alloc, words, world);
    put_line(alloc, &end, &mut world.errors);
    (status_of(&end), world)
}

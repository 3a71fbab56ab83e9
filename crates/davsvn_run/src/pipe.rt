ghost use Rattle.std.specs.Prelude.{◌≡◌, MatchResult};
ghost use Rattle.rev_nodes.specs.Forests.{repository_of};
ghost use Rattle.dav_machine.specs.Hubs.{new_hub};
ghost use Rattle.davsvn_run.specs.Runs.{PipeSays};
ghost use Rattle.davsvn_run.specs.Serving.{end_of_serving, ServingSays};
ghost use Rattle.davsvn_run.specs.Words.{file_names_in};
ghost use Rattle.davsvn_run.specs.Worlds.{IsUnreported, KeepsNothing};

use crate::command::FileNames;
use crate::end::End;
use crate::inputs::{Inputs, open_inputs};
use crate::world::World;
use authz_check::Policy;
use authz_file::Rules;
use dav_machine::{Hub, Solo};
use dav_serve::{ServeEnd, serve_connection};
use dsv_base::NoMemory;
use dsv_outside::{Clock, Files, Keeper, Sink, Source};
use rev_trees::Trees;
use std::alloc::Global;

/// Reads the three files, and serves the connection of source and sink by what they give.
pub fn pipe<S: Source, K: Sink, E: Sink, C: Clock, F: Files, P: Keeper>(
    alloc: Global,
    names: FileNames<'_>,
    mut world: World<S, K, E, C, F, P>,
) -> (End, World<S, K, E, C, F, P>)
    ensures says { PipeSays (file_names_in names.entry) world result.1 result.0 }
    ensures contents { result.1.told.contents ≡ world.told.contents }
    ensures kept { KeepsNothing world.told result.1.told }
    ensures unreported { IsUnreported world result.1 }
{
    let inputs = match open_inputs(alloc, names, &mut world.files) {
        Ok(inputs) => inputs,
        Err(end) => return (end, world),
    };
    match serve(alloc, inputs, world) {
        Ok((ended, world)) => (end_of_serving(ended), world),
        Err(world) => (End::NoMemory, world),
    }
}

/// Serves the connection of source and sink by the one pass of a machine over these inputs.
///
/// # Errors
/// Want of memory for the machine gives the world back as it was.
fn serve<S: Source, K: Sink, E: Sink, C: Clock, F: Files, P: Keeper>(
    alloc: Global,
    inputs: Inputs,
    world: World<S, K, E, C, F, P>,
) -> Result<(ServeEnd, World<S, K, E, C, F, P>), World<S, K, E, C, F, P>>
    ensures { MatchResult result (λ served. ServingSays inputs world served.1 served.0) (λ back. back ≡ world) }
{
    let World {
        mut source,
        mut sink,
        errors,
        mut clock,
        files,
        keeper,
    } = world;
    let hub = match open_hub(alloc, inputs.trees, &inputs.rules, keeper) {
        Ok(hub) => hub,
        Err(keeper) => {
            return Err(World {
                source,
                sink,
                errors,
                clock,
                files,
                keeper,
            });
        }
    };
    let mut turn = Solo::new(hub);
    let users = &inputs.users;
    let ended = serve_connection(alloc, &mut turn, &mut source, &mut sink, &mut clock, users);
    let hub = turn.end();
    hub.learn();
    let (_, keeper) = hub.end();
    let world = World {
        source,
        sink,
        errors,
        clock,
        files,
        keeper,
    };
    Ok((ended, world))
}

/// The machine over the trees, with the rights that the rules give in them. Want of memory gives the
/// keeper back.
pub(crate) fn open_hub<P: Keeper>(
    alloc: Global,
    trees: Trees,
    rules: &Rules,
    keeper: P,
) -> Result<Hub<P>, P>
    ensures { MatchResult result
        (λ hub. hub ≡ new_hub trees (record { rules = rules.now.list; name = trees.name }) keeper)
        (λ back. back ≡ keeper) }
{
    match Policy::new(alloc, rules, trees.name()) {
        Ok(policy) => Hub::new(alloc, trees, policy, keeper),
        Err(NoMemory) => Err(keeper),
    }
}

/// The end of a run whose connection ended so.
fn end_of_serving(ended: ServeEnd) -> End
    ensures { result ≡ end_of_serving ended }
{
    match ended {
        ServeEnd::Ended | ServeEnd::Closed => End::Well,
        ServeEnd::BrokeOff => End::BrokeOff,
        ServeEnd::ReadFault => End::ReadFault,
        ServeEnd::WriteFault => End::WriteFault,
        ServeEnd::NoMemory => End::NoMemory,
    }
}

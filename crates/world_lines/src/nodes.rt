//! The nodes of the devices of a world.
ghost use Rattle.std.specs.Prelude.{◌≡◌, ◌≤◌, IfOk};
ghost use Rattle.sync_world.specs.Right.{AreDifferent};
ghost use Rattle.sync_world.specs.Whole.{at_start};
ghost use Rattle.world_lines.specs.Session.{first_nodes, node_numbered};

use field_values::NoMemory;
use hybrid_clock::Node;
use std::alloc::Global;
use sync_world::World;

/// The node of the device with a number, from 1 to 16.
fn node_numbered(alloc: Global, number: u32) -> Result<Node, NoMemory>
    requires { (1 ≤ number) × (number ≤ 16) }
    ensures { IfOk result (λ node. node ≡ node_numbered number) }
{
    let text = number.to_string(alloc)?;
    match Node::make(text.as_str().as_bytes()) {
        Ok(node) => Ok(node),
        // A number above 0 has at most two digits here, and one that isn't `0`.
        Err(_) => unreachable!(),
    }
}

/// The nodes of so many devices.
fn first_nodes(alloc: Global, count: u32) -> Result<Vec<Node>, NoMemory>
    requires { count ≤ 16 }
    ensures nodes { IfOk result (λ nodes. nodes.items ≡ first_nodes count) }
    ensures different { IfOk result (λ nodes. AreDifferent nodes.items) }
{
    let mut nodes = Vec::new(alloc);
    for made in 0..count {
        nodes.push(node_numbered(alloc, made + 1)?)?;
    }
    Ok(nodes)
}

/// A world of so many devices, in which nothing has happened.
pub(crate) fn begin(alloc: Global, count: u32) -> Result<World, NoMemory>
    requires { (1 ≤ count) × (count ≤ 16) }
    ensures { IfOk result (λ world. world ≡ at_start (first_nodes count)) }
{
    let nodes = first_nodes(alloc, count)?;
    World::new(alloc, nodes.as_slice())
}

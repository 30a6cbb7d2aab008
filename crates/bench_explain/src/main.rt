//! The program `bench_explain`: explanations and live sets over a graph of a given shape and size,
//! for the script bench/explain.
//!
//! Its words are OPERATION SHAPE SIZE ROUNDS. The shapes are `layers`: so many nodes, one root that
//! reaches all of them, and a million links for 65,536; `pairs`: likewise, with one cause and one
//! effect in each instance; `parts20` and `parts50`: parts of 20 or 50 nodes, each with a root of
//! its own. The operations are `keep`: so many live sets are made, of one root after the other, and
//! kept; `make`: so many are made, of the first root, and dropped; `shrink`: likewise, and all
//! reports go from each; `explain`: the greatest story of the first root is found so often, with
//! all reports allowed, and `refuse`: with none; `pass`: each link is looked at so often, once from
//! each of its ends. It ends with status 0 where that went well, with 1 where a story came out
//! otherwise or memory ran out, and with 2 where the words are others.
#![tactic(auto)]

mod operations;
mod shapes;

use crate::operations::Operation;
use crate::shapes::Shape;
use std::alloc::AllocError;
use std::env;
use std::process::ExitCode;

/// Where the words are none of the program's.
const USAGE: u8 = 2;

/// What the words ask for.
#[derive(Drop)]
struct Order {
    operation: Operation,
    shape: Shape,
    size: u32,
    rounds: u32,
}

/// What the words ask for, none where they say nothing.
fn order_of(rt: &HostRuntime) -> Result<Option<Order>, AllocError> {
    let mut words = env::args(rt).map_err(|_| AllocError)?.skip(1);
    let (Some(operation), Some(shape)) = (words.next(), words.next()) else {
        return Ok(None);
    };
    let (Some(size), Some(rounds)) = (words.next(), words.next()) else {
        return Ok(None);
    };
    let operation = Operation::of_word(operation.as_str());
    let shape = Shape::of_word(shape.as_str());
    let (Some(operation), Some(shape)) = (operation, shape) else {
        return Ok(None);
    };
    let (Ok(size), Ok(rounds)) = (size.as_str().parse::<u32>(), rounds.as_str().parse::<u32>())
    else {
        return Ok(None);
    };
    Ok(Some(Order {
        operation,
        shape,
        size,
        rounds,
    }))
}

/// Does what the words say: whether it went well, none where they say nothing.
fn run(rt: &HostRuntime) -> Result<Option<bool>, AllocError> {
    let Some(order) = order_of(rt)? else {
        return Ok(None);
    };
    let graph = order.shape.graph(rt.alloc(), order.size)?;
    let went_well = order.operation.run(rt.alloc(), &graph, order.rounds)?;
    Ok(Some(went_well))
}

fn main(rt: HostRuntime) -> ExitCode {
    match run(&rt) {
        Ok(Some(true)) => ExitCode::SUCCESS,
        Ok(Some(false)) | Err(_) => ExitCode::FAILURE,
        Ok(None) => ExitCode::from(USAGE),
    }
}

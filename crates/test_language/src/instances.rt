// What rules come to over some parts, as a line.
use crate::checks::checked;
use crate::parts::topology;
use ev_graph::Instance;
use ev_inst::{InstFault, Made, instantiate};
use std::alloc::{AllocError, Global};
use test_words::ScriptFault;

/// Puts some numbers, with a blank behind each.
fn put_numbers(numbers: &[u32], line: &mut String) -> Result<(), AllocError> {
    for number in numbers {
        write!(line, "{number} ")?;
    }
    Ok(())
}

/// Puts each instance by its causes, its effects, N and K.
pub fn put_instances(instances: &[Instance], line: &mut String) -> Result<(), AllocError> {
    for instance in instances {
        put_numbers(instance.causes.as_slice(), line)?;
        line.push_str("> ")?;
        put_numbers(instance.effects.as_slice(), line)?;
        let (n, k) = (instance.n, instance.k);
        write!(line, "{n}/{k}; ")?;
    }
    Ok(())
}

/// The number of the nodes, the instances, and the number of skipped candidates.
fn made_text(alloc: Global, made: &Made) -> Result<String, AllocError> {
    let nodes = made.graph.nodes().len();
    let mut line = format!(in alloc; "{nodes} nodes; ")?;
    put_instances(made.graph.instances(), &mut line)?;
    let skipped = made.skipped;
    write!(&mut line, "{skipped} skipped")?;
    Ok(line)
}

/// What rules come to over some parts.
pub fn instances(alloc: Global, rules: &[u8], parts: &[u8]) -> Result<String, ScriptFault> {
    let file = checked(alloc, rules)?;
    let topo = topology(alloc, parts)?;
    match instantiate(alloc, &file, &topo) {
        Ok(made) => Ok(made_text(alloc, &made)?),
        Err(InstFault::Nodes) => Ok(String::from_str(alloc, "nodes")?),
        Err(InstFault::Links) => Ok(String::from_str(alloc, "links")?),
        Err(InstFault::NoMemory) => Err(ScriptFault::NoMemory),
    }
}

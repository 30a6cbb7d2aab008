// Conditions of rules, asked at the path `hc:///cpu=1` with the name `cpu` bound to 7.
use crate::parts::{path_in, topology};
use crate::settings::Settings;
use crate::trees::tree_of;
use crate::words::or_none;
use ev_expr::{Bound, Prop, holds, holds_for};
use ev_tree::{Cond, Statement, Tree, TreeText};
use fm_topo::TopoValue;
use std::alloc::Global;
use test_words::ScriptFault;

/// The rule whose first pattern has the condition of a text.
fn rule_of(alloc: Global, cond: &str) -> Result<Tree, ScriptFault> {
    let text = format!(in alloc; "prop fault.x@cpu{{{cond}}} -> ereport.y@cpu;")?;
    tree_of(alloc, text.as_bytes())
}

/// The condition of the first pattern of the first rule.
fn first_cond(tree: &Tree) -> Option<&Cond> {
    let statement = tree.statements.as_slice().first()?;
    match statement {
        Statement::Prop { left, .. } => left.as_slice().first()?.cond.as_ref(),
        _ => None,
    }
}

/// The name `cpu` bound to 7.
fn bound(alloc: Global) -> Result<Bound, ScriptFault> {
    let name = TreeText::new(alloc, "cpu")?;
    Ok(Bound { name, instance: 7 })
}

/// Pairs of the name `bank` with these numbers, in order.
pub fn bank_props(alloc: Global, banks: &[u32]) -> Result<Vec<Prop>, ScriptFault> {
    let mut props = Vec::new(alloc);
    for bank in banks {
        let name = TreeText::new(alloc, "bank")?;
        let value = TopoValue::Number(u64::from(*bank));
        props.push(Prop { name, value })?;
    }
    Ok(props)
}

/// What a condition answers, without a payload or, where there are banks, with them.
fn asked(alloc: Global, settings: &Settings, cond: &Cond) -> Result<bool, ScriptFault> {
    let topo = topology(alloc, &settings.parts)?;
    let path = path_in(alloc, "hc:///cpu=1")?;
    let names = [bound(alloc)?];
    if settings.banks.is_empty() {
        return Ok(holds(cond, &names, &topo, &path));
    }
    let props = bank_props(alloc, &settings.banks)?;
    Ok(holds_for(cond, &names, &topo, &path, &props))
}

/// What the condition of a text answers.
fn answers(alloc: Global, settings: &Settings, cond: &str) -> Result<bool, ScriptFault> {
    let tree = rule_of(alloc, cond)?;
    match first_cond(&tree) {
        Some(cond) => asked(alloc, settings, cond),
        None => Err(ScriptFault::Words),
    }
}

/// Whether the condition of a text holds.
pub fn cond_holds(alloc: Global, settings: &Settings, cond: &str) -> Result<String, ScriptFault> {
    let answer = answers(alloc, settings, cond)?;
    Ok(format!(in alloc; "{answer}")?)
}

/// The comparisons.
const SIGNS: [&str; 6] = ["==", "!=", "<", "<=", ">", ">="];

/// Which comparisons hold between two sums, `LEFT ~ RIGHT`.
pub fn compare(alloc: Global, settings: &Settings, words: &str) -> Result<String, ScriptFault> {
    let (left, right) = words.split_once(" ~ ").ok_or(ScriptFault::Words)?;
    let mut holding = String::new(alloc);
    for sign in SIGNS {
        let cond = format!(in alloc; "{left} {sign} {right}")?;
        if answers(alloc, settings, &cond)? {
            if !holding.is_empty() {
                holding.push(' ')?;
            }
            holding.push_str(sign)?;
        }
    }
    or_none(alloc, holding)
}

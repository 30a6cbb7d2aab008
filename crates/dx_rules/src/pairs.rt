//! The pairs of a payload that conditions ask.

ghost use Rattle.std.specs.Prelude.{◌≡◌, ◌++◌, IfOk, OnOk};
ghost use Rattle.fm_nv.specs.View.{datum};
ghost use Rattle.dx_rules.specs.Payloads.{value_in, prop_if_any, props_of};

use ev_expr::Prop;
use ev_tree::TreeText;
use fm_bytes::NoMemory;
use fm_nv::{Nv, Value};
use fm_topo::{TopoText, TopoValue};
use std::alloc::Global;

/// The value of a pair, where a condition can ask it.
fn value_in(alloc: Global, value: &Value) -> Result<Option<TopoValue>, NoMemory>
    ensures { IfOk result (λ found. found ≡ value_in (datum value.now)) }
{
    match value {
        Value::Unsigned(number) => Ok(Some(TopoValue::Number(*number))),
        Value::Text(text) => {
            let text = TopoText::new(alloc, text.get())?;
            Ok(Some(TopoValue::Text(text)))
        }
        Value::Bool(_) | Value::Signed(_) | Value::List(_) => Ok(None),
        Value::Unsigneds(_) | Value::Texts(_) | Value::Lists(_) => Ok(None),
    }
}

/// Appends a pair, where a condition can ask it.
fn put_prop(alloc: Global, props: &mut Vec<Prop>, name: &str, value: &Value) -> Result<(), NoMemory>
    ensures { OnOk result
        (props.new.items ≡ props.old.items ++ prop_if_any name.now (value_in (datum value.now))) }
{
    match value_in(alloc, value)? {
        Some(value) => {
            let name = TreeText::new(alloc, name)?;
            props.push(Prop { name, value })?;
            Ok(())
        }
        None => Ok(()),
    }
}

/// The pairs of a payload that a condition can ask: those with a number from 0 or a text.
pub(crate) fn props_of(alloc: Global, payload: &Nv) -> Result<Vec<Prop>, NoMemory>
    ensures { IfOk result (λ props. props.items ≡ props_of payload.now) }
{
    let mut props = Vec::new(alloc);
    for at in 0..payload.len() {
        put_prop(alloc, &mut props, payload.name(at), payload.value(at))?;
    }
    Ok(props)
}

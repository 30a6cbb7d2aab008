//! What operands and sums are worth.

ghost use Rattle.std.specs.Prelude.{◌≡◌, ◌<◌, ◌^◌, Some, IfSome};
ghost use Rattle.ev_expr.specs.Operands as meaning;
ghost use Rattle.fm_topo.specs.Query.{property_at};

use crate::settings::{Bound, Environment, Prop, Worth};
use ev_tree::Operand;
use fm_topo::TopoValue;

/// What a value of a topology or a payload is worth.
fn worth_of(value: &TopoValue) -> Worth<'_>
    ensures value { meaning.view_worth result ≡ Some value.now }
    ensures small { meaning.HasSmallNumber result }
{
    match value {
        TopoValue::Number(number) => Worth::Number(u128::from(*number)),
        TopoValue::Text(text) => Worth::Text(text.get()),
    }
}

/// The instance that is bound to a name.
fn bound_worth<'a>(names: &'a [Bound], name: &str) -> Worth<'a>
    ensures value { meaning.view_worth result ≡ meaning.bound_value names.now name.now }
    ensures small { meaning.HasSmallNumber result }
{
    let mut rest = names;
    'names: while let [first, others @ ..] = rest {
        if first.name.get() == name {
            return Worth::Number(u128::from(first.instance));
        }
        rest = others;
    }
    Worth::Absent
}

/// The value of a name in a payload.
fn payload_worth<'a>(props: &'a [Prop], name: &str) -> Worth<'a>
    ensures value { meaning.view_worth result ≡ meaning.payload_value props.now name.now }
    ensures small { meaning.HasSmallNumber result }
{
    let mut rest = props;
    'pairs: while let [first, others @ ..] = rest {
        if first.name.get() == name {
            return worth_of(&first.value);
        }
        rest = others;
    }
    Worth::Absent
}

/// The value of a property of the path.
fn property_worth<'a>(env: &Environment<'a>, name: &str) -> Worth<'a>
    ensures value { meaning.view_worth result
        ≡ property_at env.now.topo.now env.now.path.now name.now }
    ensures small { meaning.HasSmallNumber result }
{
    match env.topo.property_near(env.near, env.path, name) {
        Some(value) => worth_of(value),
        None => Worth::Absent,
    }
}

/// What an operand is worth.
fn operand_worth<'a>(env: &Environment<'a>, operand: &'a Operand) -> Worth<'a>
    ensures value { meaning.view_worth result
        ≡ meaning.operand_value (meaning.setting_of env.now) operand.now }
    ensures small { meaning.HasSmallNumber result }
{
    match operand {
        Operand::Int(number) => Worth::Number(u128::from(*number)),
        Operand::Name(name) => bound_worth(env.names, name.get()),
        Operand::Text(text) => Worth::Text(text.get()),
        Operand::Confprop(name) => property_worth(env, name.get()),
        Operand::Payloadprop(name) => payload_worth(env.props, name.get()),
    }
}

/// The number that an operand is worth, where it is one.
fn operand_number(env: &Environment, operand: &Operand) -> Option<u64>
    ensures { result ≡ meaning.number_in
        (meaning.operand_value (meaning.setting_of env.now) operand.now) }
{
    match operand_worth(env, operand) {
        Worth::Number(number) => Some(number as u64),
        Worth::Text(_) => None,
        Worth::Absent => None,
    }
}

/// The sum of the numbers that operands are worth, where each is worth one.
fn total_worth<'a>(env: &Environment<'a>, operands: &'a [Operand]) -> Worth<'a>
    ensures { meaning.view_worth result
        ≡ meaning.exact_sum (meaning.setting_of env.now) operands.now }
{
    let mut sum: u128 = 0;
    for operand in operands {
        match operand_number(env, operand) {
            Some(number) => sum += u128::from(number),
            None => return Worth::Absent,
        }
    }
    Worth::Number(sum)
}

/// What a sum is worth.
pub(crate) fn sum_worth<'a>(env: &Environment<'a>, operands: &'a [Operand]) -> Worth<'a>
    ensures { meaning.view_worth result
        ≡ meaning.sum_value (meaning.setting_of env.now) operands.now }
{
    match operands {
        [only] => operand_worth(env, only),
        _ => total_worth(env, operands),
    }
}

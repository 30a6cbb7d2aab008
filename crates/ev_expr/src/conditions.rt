//! Whether conditions hold.

ghost use Rattle.std.specs.Prelude.{◌≡◌, [], map};
ghost use Rattle.ev_tree.specs.Condition.{conditions, view_cond};
ghost use Rattle.ev_expr.specs.Conditions as truth;
ghost use Rattle.ev_expr.specs.Operands.{setting_of, view_worth};

use crate::operands::sum_worth;
use crate::settings::{Bound, Environment, Prop, Worth};
use ev_tree::{Compare, Cond};
use fm_name::Fmri;
use fm_topo::Topo;

/// Whether two numbers compare so.
fn number_compares(how: Compare, left: u128, right: u128) -> bool
    ensures { result ≡ truth.number_compares how left right }
{
    match how {
        Compare::Eq => left == right,
        Compare::Ne => left != right,
        Compare::Lt => left < right,
        Compare::Le => left <= right,
        Compare::Gt => left > right,
        Compare::Ge => left >= right,
    }
}

/// Whether two texts compare so.
fn text_compares(how: Compare, text: &str, other: &str) -> bool
    ensures { result ≡ truth.text_compares how text.now other.now }
{
    match how {
        Compare::Eq => text == other,
        Compare::Ne => text != other,
        _ => false,
    }
}

/// Whether two sums compare so.
fn worth_compares(how: Compare, left: Worth, right: Worth) -> bool
    ensures { result ≡ truth.value_compares how (view_worth left.entry) (view_worth right.entry) }
{
    match (left, right) {
        (Worth::Number(left), Worth::Number(right)) => number_compares(how, left, right),
        (Worth::Text(left), Worth::Text(right)) => text_compares(how, left, right),
        (_, _) => false,
    }
}

/// Whether one of the conditions holds.
#[cycle(holds)]
fn any_holds(env: &Environment, conds: &[Cond]) -> bool
    ensures { result
        ≡ truth.any_holds (setting_of env.now) (conditions (map view_cond conds.now)) }
{
    for cond in conds {
        if cond_holds(env, cond) {
            return true;
        }
    }
    false
}

/// Whether each of the conditions holds.
#[cycle(holds)]
fn all_hold(env: &Environment, conds: &[Cond]) -> bool
    ensures { result
        ≡ truth.all_hold (setting_of env.now) (conditions (map view_cond conds.now)) }
{
    for cond in conds {
        if !cond_holds(env, cond) {
            return false;
        }
    }
    true
}

/// Whether a condition holds.
#[cycle(holds)]
fn cond_holds(env: &Environment, cond: &Cond) -> bool
    ensures { result ≡ truth.holds (setting_of env.now) (view_cond cond.now) }
{
    match cond {
        Cond::Any(members) => any_holds(env, members.as_slice()),
        Cond::All(members) => all_hold(env, members.as_slice()),
        Cond::Not(inner) => !cond_holds(env, inner),
        Cond::Defined(name) => env
            .topo
            .property_near(env.near, env.path, name.get())
            .is_some(),
        Cond::Compares { left, how, right } => {
            let left = sum_worth(&*env, left.as_slice());
            let right = sum_worth(&*env, right.as_slice());
            worth_compares(*how, left, right)
        }
    }
}

/// Whether a condition holds at a path, with these names bound and a payload of these pairs. It
/// takes no memory.
pub fn holds_for(cond: &Cond, names: &[Bound], topo: &Topo, path: &Fmri, props: &[Prop]) -> bool
    ensures { result ≡ truth.holds
        (record { names = names.now; topology = topo.now; path = path.now; props = props.now })
        (view_cond cond.now) }
{
    let env = Environment {
        names,
        topo,
        near: 0,
        path,
        props,
    };
    cond_holds(&env, cond)
}

/// Whether a condition holds at a path, with these names bound and an empty payload. It takes no
/// memory.
pub fn holds(cond: &Cond, names: &[Bound], topo: &Topo, path: &Fmri) -> bool
    ensures { result ≡ truth.holds
        (record { names = names.now; topology = topo.now; path = path.now; props = [] })
        (view_cond cond.now) }
{
    holds_for(cond, names, topo, path, &[])
}

/// Whether a condition holds at a path, as [`holds`] answers it. The path is sought in the topology
/// at a number first.
pub fn holds_near(cond: &Cond, names: &[Bound], topo: &Topo, near: usize, path: &Fmri) -> bool
    ensures { result ≡ truth.holds
        (record { names = names.now; topology = topo.now; path = path.now; props = [] })
        (view_cond cond.now) }
{
    let env = Environment {
        names,
        topo,
        near,
        path,
        props: &[],
    };
    cond_holds(&env, cond)
}

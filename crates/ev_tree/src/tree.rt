//! The types of a tree: one for each rule of the grammar.

use crate::lists::{
    EngineAttrs, EventAttrs, Names, Operands, Parts, Patterns, Statements, TreeText,
};
use fm_name::Class;

/// What an event or an engine statement declares: a class at the paths with these names.
#[derive(Debug, Drop)]
pub struct Declared {
    pub class: Class,
    pub names: Names,
}

/// A unit of time, from nanoseconds to days.
#[derive(Clone, Copy, Debug, PartialEq, Eq)]
pub enum Unit {
    Ns,
    Us,
    Ms,
    S,
    M,
    H,
    D,
}

/// A length of time as it is written: a number and its unit.
#[derive(Clone, Copy, Debug, PartialEq, Eq)]
pub struct TimeWord {
    pub number: u64,
    pub unit: Unit,
}

/// An attribute of an event statement: `FITrate=`, `retire=`, `engine=` or `within=`.
#[derive(Drop)]
pub enum EventAttr {
    Fit(u64),
    Retire(u64),
    Engine(Class),
    Within(TimeWord),
}

/// An attribute of an engine statement: `N=`, `T=` or `trip=`.
#[derive(Drop)]
pub enum EngineAttr {
    N(u64),
    T(TimeWord),
    Trip(Class),
}

/// What stands behind a name of a pattern: nothing, `[name]`, `[3]` or `<name>`.
#[derive(Drop)]
pub enum At {
    Bare,
    Down(TreeText),
    Number(u64),
    Across(TreeText),
}

/// A part of a pattern: a name and its iterator or constant.
#[derive(Drop)]
pub struct Part {
    pub name: TreeText,
    pub at: At,
}

/// How two sums are compared: `==`, `!=`, `<`, `<=`, `>` or `>=`.
#[derive(Clone, Copy, Debug, PartialEq, Eq)]
pub enum Compare {
    Eq,
    Ne,
    Lt,
    Le,
    Gt,
    Ge,
}

/// An operand of a sum: a number, a name, a quoted text, or a property of the path or of the
/// payload.
#[derive(Drop)]
pub enum Operand {
    Int(u64),
    Name(TreeText),
    Text(TreeText),
    Confprop(TreeText),
    Payloadprop(TreeText),
}

/// A condition. `Any` and `All` have at least two members in a tree that the grammar spells: a
/// group in parentheses that is `Any` or `All` is a member of its own, and other parentheses leave
/// no trace.
#[derive(Drop)]
pub enum Cond {
    Any(Vec<Cond>),
    All(Vec<Cond>),
    Not(Box<Cond>),
    Defined(TreeText),
    Compares {
        left: Operands,
        how: Compare,
        right: Operands,
    },
}

/// A pattern of a propagation statement: a class at the paths of these parts, under a condition.
#[derive(Drop)]
pub struct SidePattern {
    pub class: Class,
    pub parts: Parts,
    pub cond: Option<Cond>,
}

/// A number at an arrow: `A` for all, or a number.
#[derive(Clone, Copy, Debug, PartialEq, Eq)]
pub enum Count {
    All,
    Number(u64),
}

/// A statement, with the place of its first byte in the text.
#[derive(Drop)]
pub enum Statement {
    Event {
        place: u32,
        event: Declared,
        attrs: EventAttrs,
    },
    Engine {
        place: u32,
        engine: Declared,
        attrs: EngineAttrs,
    },
    Prop {
        place: u32,
        left: Patterns,
        n: Option<Count>,
        k: Option<Count>,
        right: Patterns,
    },
}

/// A whole rule file.
#[derive(Drop)]
pub struct Tree {
    pub statements: Statements,
}

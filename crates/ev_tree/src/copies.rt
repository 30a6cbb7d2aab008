//! Copies of trees, and of each of their parts.
ghost use Rattle.std.specs.Prelude.{◌≡◌, IfOk, map};
ghost use Rattle.ev_tree.specs.Condition.{view_cond};
ghost use Rattle.ev_tree.specs.Pattern.{view_pattern};
ghost use Rattle.ev_tree.specs.Rule.{place_of, view_statement, view_tree};

use crate::lists::{Patterns, Statements};
use crate::tree::{
    At, Compare, Cond, Count, Declared, EngineAttr, EventAttr, Operand, Part, SidePattern,
    Statement, TimeWord, Tree, Unit,
};
use fm_bytes::{Copies, NoMemory};
use std::alloc::Global;

impl Unit {
    /// The same unit.
    pub fn copy(&self) -> Result<Self, NoMemory>
        ensures { IfOk result (λ u. u ≡ self.now) }
    {
        Ok(*self)
    }
}

impl TimeWord {
    /// The same length of time.
    pub fn copy(&self) -> Result<Self, NoMemory>
        ensures { IfOk result (λ w. w ≡ self.now) }
    {
        Ok(*self)
    }
}

impl Compare {
    /// The same comparison.
    pub fn copy(&self) -> Result<Self, NoMemory>
        ensures { IfOk result (λ c. c ≡ self.now) }
    {
        Ok(*self)
    }
}

impl Count {
    /// The same number.
    pub fn copy(&self) -> Result<Self, NoMemory>
        ensures { IfOk result (λ c. c ≡ self.now) }
    {
        Ok(*self)
    }
}

impl Copies for Declared {
    fn copy(&self, alloc: Global) -> Result<Declared, NoMemory> {
        let class = self.class.copy()?;
        let names = self.names.copy(alloc)?;
        Ok(Declared { class, names })
    }
}

impl Copies for EventAttr {
    fn copy(&self, alloc: Global) -> Result<EventAttr, NoMemory> {
        match self {
            EventAttr::Fit(number) => Ok(EventAttr::Fit(*number)),
            EventAttr::Retire(number) => Ok(EventAttr::Retire(*number)),
            EventAttr::Engine(class) => Ok(EventAttr::Engine(class.copy()?)),
            EventAttr::Within(time) => Ok(EventAttr::Within(*time)),
        }
    }
}

impl Copies for EngineAttr {
    fn copy(&self, alloc: Global) -> Result<EngineAttr, NoMemory> {
        match self {
            EngineAttr::N(number) => Ok(EngineAttr::N(*number)),
            EngineAttr::T(time) => Ok(EngineAttr::T(*time)),
            EngineAttr::Trip(class) => Ok(EngineAttr::Trip(class.copy()?)),
        }
    }
}

impl Copies for At {
    fn copy(&self, alloc: Global) -> Result<At, NoMemory> {
        match self {
            At::Bare => Ok(At::Bare),
            At::Down(name) => Ok(At::Down(name.copy(alloc)?)),
            At::Number(number) => Ok(At::Number(*number)),
            At::Across(name) => Ok(At::Across(name.copy(alloc)?)),
        }
    }
}

impl Copies for Part {
    fn copy(&self, alloc: Global) -> Result<Part, NoMemory> {
        let name = self.name.copy(alloc)?;
        let at = self.at.copy(alloc)?;
        Ok(Part { name, at })
    }
}

impl Copies for Operand {
    fn copy(&self, alloc: Global) -> Result<Operand, NoMemory> {
        match self {
            Operand::Int(number) => Ok(Operand::Int(*number)),
            Operand::Name(name) => Ok(Operand::Name(name.copy(alloc)?)),
            Operand::Text(text) => Ok(Operand::Text(text.copy(alloc)?)),
            Operand::Confprop(name) => Ok(Operand::Confprop(name.copy(alloc)?)),
            Operand::Payloadprop(name) => Ok(Operand::Payloadprop(name.copy(alloc)?)),
        }
    }
}

/// Conditions that are equal but for where they lie in memory.
#[cycle(copy)]
fn copy_conds(alloc: Global, conds: &[Cond]) -> Result<Vec<Cond>, NoMemory>
    ensures { IfOk result (λ v. map view_cond v.items ≡ map view_cond conds.now) }
{
    let mut copies = Vec::new(alloc);
    for cond in conds {
        copies.push(copy_cond(alloc, cond)?)?;
    }
    Ok(copies)
}

/// A condition that is equal but for where it lies in memory.
#[cycle(copy)]
fn copy_cond(alloc: Global, cond: &Cond) -> Result<Cond, NoMemory>
    ensures { IfOk result (λ c. view_cond c ≡ view_cond cond.now) }
{
    match cond {
        Cond::Any(members) => {
            let members = copy_conds(alloc, members.as_slice())?;
            Ok(Cond::Any(members))
        }
        Cond::All(members) => {
            let members = copy_conds(alloc, members.as_slice())?;
            Ok(Cond::All(members))
        }
        Cond::Not(inner) => {
            let inner = copy_cond(alloc, inner)?;
            let inner = Box::new(alloc, inner)?;
            Ok(Cond::Not(inner))
        }
        Cond::Defined(name) => {
            let name = name.copy(alloc)?;
            Ok(Cond::Defined(name))
        }
        Cond::Compares { left, how, right } => {
            let left = left.copy(alloc)?;
            let right = right.copy(alloc)?;
            Ok(Cond::Compares {
                left,
                how: *how,
                right,
            })
        }
    }
}

impl Cond {
    /// A condition that is equal but for where it lies in memory.
    pub fn copy(&self, alloc: Global) -> Result<Self, NoMemory>
        ensures { IfOk result (λ c. view_cond c ≡ view_cond self.now) }
    {
        copy_cond(alloc, self)
    }
}

impl SidePattern {
    /// A pattern that is equal but for where it lies in memory.
    pub fn copy(&self, alloc: Global) -> Result<Self, NoMemory>
        ensures { IfOk result (λ p. view_pattern p ≡ view_pattern self.now) }
    {
        let class = self.class.copy()?;
        let parts = self.parts.copy(alloc)?;
        match &self.cond {
            None => Ok(SidePattern {
                class,
                parts,
                cond: None,
            }),
            Some(cond) => {
                let cond = cond.copy(alloc)?;
                Ok(SidePattern {
                    class,
                    parts,
                    cond: Some(cond),
                })
            }
        }
    }
}

impl Statement {
    /// The place of the statement's first byte in the text.
    pub fn place(&self) -> u32
        ensures { result ≡ place_of self.now }
    {
        match self {
            Statement::Event { place, .. } => *place,
            Statement::Engine { place, .. } => *place,
            Statement::Prop { place, .. } => *place,
        }
    }

    /// A statement with the same place and the same rule.
    pub fn copy(&self, alloc: Global) -> Result<Self, NoMemory>
        ensures rule { IfOk result (λ s. view_statement s ≡ view_statement self.now) }
        ensures place { IfOk result (λ s. place_of s ≡ place_of self.now) }
    {
        match self {
            Statement::Event {
                place,
                event,
                attrs,
            } => {
                let event = event.copy(alloc)?;
                let attrs = attrs.copy(alloc)?;
                Ok(Statement::Event {
                    place: *place,
                    event,
                    attrs,
                })
            }
            Statement::Engine {
                place,
                engine,
                attrs,
            } => {
                let engine = engine.copy(alloc)?;
                let attrs = attrs.copy(alloc)?;
                Ok(Statement::Engine {
                    place: *place,
                    engine,
                    attrs,
                })
            }
            Statement::Prop {
                place,
                left,
                n,
                k,
                right,
            } => {
                let left = copy_patterns(alloc, left)?;
                let right = copy_patterns(alloc, right)?;
                Ok(Statement::Prop {
                    place: *place,
                    left,
                    n: *n,
                    k: *k,
                    right,
                })
            }
        }
    }
}

impl Tree {
    /// A tree with the same rules at the same places.
    pub fn copy(&self, alloc: Global) -> Result<Self, NoMemory>
        ensures rules { IfOk result (λ t. view_tree t ≡ view_tree self.now) }
        ensures places { IfOk result
            (λ t. map place_of t.statements ≡ map place_of self.now.statements) }
    {
        let statements = copy_statements(alloc, &self.statements)?;
        Ok(Tree { statements })
    }
}

/// A list of the same patterns.
pub fn copy_patterns(alloc: Global, patterns: &Patterns) -> Result<Patterns, NoMemory>
    ensures { IfOk result (λ l. map view_pattern l ≡ map view_pattern patterns.now) }
{
    let mut copies = Vec::new(alloc);
    for pattern in patterns.as_slice() {
        copies.push(pattern.copy(alloc)?)?;
    }
    Ok(Patterns::new(copies))
}

/// A list of the same rules at the same places.
pub fn copy_statements(alloc: Global, statements: &Statements) -> Result<Statements, NoMemory>
    ensures rules { IfOk result (λ l. map view_statement l ≡ map view_statement statements.now) }
    ensures places { IfOk result (λ l. map place_of l ≡ map place_of statements.now) }
{
    let mut copies = Vec::new(alloc);
    for statement in statements.as_slice() {
        copies.push(statement.copy(alloc)?)?;
    }
    Ok(Statements::new(copies))
}

ghost use Rattle.std.specs.Prelude.{◌≡◌, ◌++◌, OnOk, OnErr, map, codes};
ghost use Rattle.ev_tree.specs.Pattern.{view_pattern};
ghost use Rattle.ev_tree.specs.Printing as show;
ghost use Rattle.ev_tree.specs.Rule.{EngineRule, EventRule, PropRule, view_statement, view_tree};
ghost use Rattle.ev_tree.specs.Text.{text_of};

use crate::lists::{EngineAttrs, EventAttrs, Patterns};
use crate::print_conditions::print_guard;
use crate::print_parts::{
    print_count, print_declared, print_engine_attrs, print_event_attrs, print_parts,
};
use crate::print_words::{put, put_class, put_end};
use crate::tree::{Count, Declared, SidePattern, Statement, Tree};
use fm_bytes::NoMemory;

fn print_pattern(out: &mut Vec<u8>, pattern: &SidePattern) -> Result<(), NoMemory>
    ensures { OnOk result
        (out.new.items ≡ out.old.items
        ++ text_of (show.pattern_tokens (view_pattern pattern.now))) }
{
    put_class(out, &pattern.class)?;
    put(out, b"@")?;
    print_parts(out, pattern.parts.as_slice())?;
    print_guard(out, &pattern.cond)
}

fn print_side(out: &mut Vec<u8>, patterns: &[SidePattern]) -> Result<(), NoMemory>
    ensures { OnOk result
        (out.new.items ≡ out.old.items
        ++ text_of (show.side_tokens (map view_pattern patterns.now))) }
{
    let Some((first, others)) = patterns.split_first() else {
        return Ok(());
    };
    print_pattern(out, first)?;
    for other in others {
        put(out, b",")?;
        print_pattern(out, other)?;
    }
    Ok(())
}

fn print_event(out: &mut Vec<u8>, event: &Declared, attrs: &EventAttrs) -> Result<(), NoMemory>
    ensures { OnOk result
        (out.new.items ≡ out.old.items
        ++ text_of (show.rule_tokens (EventRule event.now attrs.now))) }
{
    put(out, b"event")?;
    print_declared(out, event)?;
    print_event_attrs(out, attrs.as_slice())?;
    put_end(out)
}

fn print_engine(out: &mut Vec<u8>, engine: &Declared, attrs: &EngineAttrs) -> Result<(), NoMemory>
    ensures { OnOk result
        (out.new.items ≡ out.old.items
        ++ text_of (show.rule_tokens (EngineRule engine.now attrs.now))) }
{
    put(out, b"engine")?;
    print_declared(out, engine)?;
    print_engine_attrs(out, attrs.as_slice())?;
    put_end(out)
}

fn print_prop(
    out: &mut Vec<u8>,
    left: &Patterns,
    n: Option<Count>,
    k: Option<Count>,
    right: &Patterns,
) -> Result<(), NoMemory>
    ensures { OnOk result
        (out.new.items ≡ out.old.items
        ++ text_of (show.rule_tokens
        (PropRule (map view_pattern left.now) n k (map view_pattern right.now)))) }
{
    put(out, b"prop")?;
    print_side(out, left.as_slice())?;
    print_count(out, n)?;
    put(out, b"->")?;
    print_count(out, k)?;
    print_side(out, right.as_slice())?;
    put_end(out)
}

fn print_statement(out: &mut Vec<u8>, statement: &Statement) -> Result<(), NoMemory>
    ensures { OnOk result
        (out.new.items ≡ out.old.items
        ++ text_of (show.rule_tokens (view_statement statement.now))) }
{
    match statement {
        Statement::Event { event, attrs, .. } => print_event(out, event, attrs),
        Statement::Engine { engine, attrs, .. } => print_engine(out, engine, attrs),
        Statement::Prop {
            left,
            n,
            k,
            right,
            ..
        } => print_prop(out, left, *n, *k, right),
    }
}

fn print_statements(out: &mut Vec<u8>, statements: &[Statement]) -> Result<(), NoMemory>
    ensures { OnOk result
        (out.new.items ≡ out.old.items
        ++ text_of (show.file_tokens (map view_statement statements.now))) }
{
    for statement in statements {
        print_statement(out, statement)?;
    }
    Ok(())
}

/// Adds the text of a tree: its tokens with the fewest parentheses, a space after each and a
/// newline after each statement. Places leave no trace in it. After `NoMemory` nothing is added.
pub fn print_tree(tree: &Tree, out: &mut Vec<u8>) -> Result<(), NoMemory>
    ensures ok { OnOk result
        (out.new.items ≡ out.old.items ++ text_of (show.file_tokens (view_tree tree.now))) }
    ensures err { OnErr result (out.new.items ≡ out.old.items) }
{
    let alloc = *out.allocator();
    let mut text = Vec::new(alloc);
    print_statements(&mut text, tree.statements.as_slice())?;
    out.extend_from_slice(text.as_slice())?;
    Ok(())
}

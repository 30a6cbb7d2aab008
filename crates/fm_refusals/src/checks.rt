//! What a check finds, in words.

ghost use Rattle.std.specs.Prelude.{◌≡◌, ◌++◌, OnOk};
ghost use Rattle.std.specs.Prelude.{string_bytes};
ghost use Rattle.fm_refusals.specs.Refusals.{declared_text, names_text, behind_slash, members_text};
ghost use Rattle.fm_refusals.specs.Refusals.{check_text, behind_space};

use ev_tree::{Declared, TreeText};
use ev_words::CheckKind;
use fm_bytes::NoMemory;

/// Adds the names of a path, from the root on, with a slash between two.
fn push_names(names: &[TreeText], line: &mut String) -> Result<(), NoMemory>
    ensures { OnOk result (string_bytes line.new ≡ string_bytes line.old ++ names_text names.now) }
{
    let Some((first, others)) = names.split_first() else {
        return Ok(());
    };
    line.push_str(first.get())?;
    'others: for other in others {
        line.push_str("/")?;
        line.push_str(other.get())?;
    }
    Ok(())
}

/// Adds what a statement declares.
fn push_declared(declared: &Declared, line: &mut String) -> Result<(), NoMemory>
    ensures { OnOk result
        (string_bytes line.new ≡ string_bytes line.old ++ declared_text declared.now) }
{
    line.push_str(declared.class.text())?;
    line.push_str("@")?;
    push_names(declared.names.as_slice(), line)
}

/// Adds the members of a ring, a space before each.
fn push_members(members: &[Declared], line: &mut String) -> Result<(), NoMemory>
    ensures { OnOk result
        (string_bytes line.new ≡ string_bytes line.old ++ members_text members.now) }
{
    'members: for member in members {
        line.push_str(" ")?;
        push_declared(member, line)?;
    }
    Ok(())
}

/// Adds what a check finds.
pub(crate) fn push_check(kind: &CheckKind, line: &mut String) -> Result<(), NoMemory>
    ensures { OnOk result (string_bytes line.new ≡ string_bytes line.old ++ check_text kind.now) }
{
    let word = match kind {
        CheckKind::BadKind => "kind",
        CheckKind::Twice => "twice",
        CheckKind::Missing => "missing",
        CheckKind::BadCount => "count",
        CheckKind::BadTime => "time",
        CheckKind::FreeIterator => "iterator",
        CheckKind::Undeclared => "undeclared",
        CheckKind::UpsetTrips => "upset-trips",
        CheckKind::Cycle(members) => {
            line.push_str("cycle")?;
            return push_members(members.as_slice(), line);
        }
    };
    line.push_str(word)?;
    Ok(())
}

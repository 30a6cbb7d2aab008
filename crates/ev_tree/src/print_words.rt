ghost use Rattle.std.specs.Prelude.{◌≡◌, ◌∷◌, [], ◌++◌, OnOk, codes};
ghost use Rattle.std.specs.Fmt.{decimal};
ghost use Rattle.ev_tree.specs.Text.{text_of, unit_bytes};
ghost use Rattle.ev_tree.specs.Tok as tok;

use crate::lists::TreeText;
use crate::tree::{TimeWord, Unit};
use fm_bytes::NoMemory;
use fm_name::Class;

/// Adds bytes and a space.
pub(crate) fn put(out: &mut Vec<u8>, bytes: &[u8]) -> Result<(), NoMemory>
    ensures { OnOk result (out.new.items ≡ out.old.items ++ (bytes.now ++ 32 ∷ [])) }
{
    out.extend_from_slice(bytes)?;
    out.push(b' ')?;
    Ok(())
}

/// Adds the end of a statement.
pub(crate) fn put_end(out: &mut Vec<u8>) -> Result<(), NoMemory>
    ensures { OnOk result (out.new.items ≡ out.old.items ++ (59 ∷ 10 ∷ [])) }
{
    out.extend_from_slice(b";\n")?;
    Ok(())
}

fn put_number(out: &mut Vec<u8>, number: u64) -> Result<(), NoMemory>
    ensures { OnOk result (out.new.items ≡ out.old.items ++ decimal number) }
{
    let alloc = *out.allocator();
    let digits = number.to_string(alloc)?;
    out.extend_from_slice(digits.as_bytes())?;
    Ok(())
}

pub(crate) fn put_int(out: &mut Vec<u8>, number: u64) -> Result<(), NoMemory>
    ensures { OnOk result (out.new.items ≡ out.old.items ++ (decimal number ++ 32 ∷ [])) }
{
    put_number(out, number)?;
    out.push(b' ')?;
    Ok(())
}

fn put_unit(out: &mut Vec<u8>, unit: Unit) -> Result<(), NoMemory>
    ensures { OnOk result (out.new.items ≡ out.old.items ++ (unit_bytes unit ++ 32 ∷ [])) }
{
    match unit {
        Unit::Ns => put(out, b"ns"),
        Unit::Us => put(out, b"us"),
        Unit::Ms => put(out, b"ms"),
        Unit::S => put(out, b"s"),
        Unit::M => put(out, b"m"),
        Unit::H => put(out, b"h"),
        Unit::D => put(out, b"d"),
    }
}

pub(crate) fn put_time(out: &mut Vec<u8>, time: TimeWord) -> Result<(), NoMemory>
    ensures { OnOk result (out.new.items ≡ out.old.items ++ text_of (tok.Time time ∷ [])) }
{
    put_number(out, time.number)?;
    put_unit(out, time.unit)
}

pub(crate) fn put_quoted(out: &mut Vec<u8>, text: &TreeText) -> Result<(), NoMemory>
    ensures { OnOk result (out.new.items ≡ out.old.items ++ text_of (tok.Text text.now ∷ [])) }
{
    out.push(b'"')?;
    out.extend_from_slice(text.get().as_bytes())?;
    put(out, b"\"")
}

pub(crate) fn put_name(out: &mut Vec<u8>, name: &TreeText) -> Result<(), NoMemory>
    ensures { OnOk result (out.new.items ≡ out.old.items ++ text_of (tok.Name name.now ∷ [])) }
{
    put(out, name.get().as_bytes())
}

pub(crate) fn put_class(out: &mut Vec<u8>, class: &fm_name::Class) -> Result<(), NoMemory>
    ensures { OnOk result (out.new.items ≡ out.old.items ++ text_of (tok.Class class.now ∷ [])) }
{
    put(out, class.text().as_bytes())
}

/// A word and a quoted text in parentheses.
pub(crate) fn print_call(out: &mut Vec<u8>, word: &[u8], text: &TreeText) -> Result<(), NoMemory>
    ensures { OnOk result
        (out.new.items ≡ out.old.items
        ++ (word.now ++ (32 ∷ text_of
        (tok.Sign (codes "(") ∷ tok.Text text.now ∷ tok.Sign (codes ")") ∷ [])))) }
{
    put(out, word)?;
    put(out, b"(")?;
    put_quoted(out, text)?;
    put(out, b")")
}

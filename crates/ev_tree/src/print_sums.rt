ghost use Rattle.std.specs.Prelude.{◌≡◌, ◌∷◌, [], ◌++◌, OnOk, codes};
ghost use Rattle.ev_tree.specs.Printing as show;
ghost use Rattle.ev_tree.specs.Text.{text_of};
ghost use Rattle.ev_tree.specs.Tok as tok;

use crate::print_words::{print_call, put, put_int, put_name, put_quoted};
use crate::tree::{Compare, Operand};
use fm_bytes::NoMemory;

fn print_operand(out: &mut Vec<u8>, operand: &Operand) -> Result<(), NoMemory>
    ensures { OnOk result
        (out.new.items ≡ out.old.items ++ text_of (show.operand_tokens operand.now)) }
{
    match operand {
        Operand::Int(number) => put_int(out, *number),
        Operand::Name(name) => put_name(out, name),
        Operand::Text(text) => put_quoted(out, text),
        Operand::Confprop(name) => print_call(out, b"confprop", name),
        Operand::Payloadprop(name) => print_call(out, b"payloadprop", name),
    }
}

pub(crate) fn print_sum(out: &mut Vec<u8>, operands: &[Operand]) -> Result<(), NoMemory>
    ensures { OnOk result
        (out.new.items ≡ out.old.items
        ++ text_of (show.between (codes "+") show.operand_tokens operands.now)) }
{
    let Some((first, others)) = operands.split_first() else {
        return Ok(());
    };
    print_operand(out, first)?;
    for other in others {
        put(out, b"+")?;
        print_operand(out, other)?;
    }
    Ok(())
}

pub(crate) fn print_compare(out: &mut Vec<u8>, compare: Compare) -> Result<(), NoMemory>
    ensures { OnOk result
        (out.new.items ≡ out.old.items ++ text_of (tok.Sign (show.compare_sign compare) ∷ [])) }
{
    match compare {
        Compare::Eq => put(out, b"=="),
        Compare::Ne => put(out, b"!="),
        Compare::Lt => put(out, b"<"),
        Compare::Le => put(out, b"<="),
        Compare::Gt => put(out, b">"),
        Compare::Ge => put(out, b">="),
    }
}

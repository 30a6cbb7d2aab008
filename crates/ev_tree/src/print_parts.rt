ghost use Rattle.std.specs.Prelude.{◌≡◌, ◌++◌, OnOk, codes};
ghost use Rattle.ev_tree.specs.Printing as show;
ghost use Rattle.ev_tree.specs.Text.{text_of};

use crate::lists::TreeText;
use crate::print_words::{put, put_class, put_int, put_name, put_time};
use crate::tree::{At, Count, Declared, EngineAttr, EventAttr, Part};
use fm_bytes::NoMemory;

fn print_names(out: &mut Vec<u8>, names: &[TreeText]) -> Result<(), NoMemory>
    ensures { OnOk result
        (out.new.items ≡ out.old.items
        ++ text_of (show.between (codes "/") show.name_tokens names.now)) }
{
    let Some((first, others)) = names.split_first() else {
        return Ok(());
    };
    put_name(out, first)?;
    for other in others {
        put(out, b"/")?;
        put_name(out, other)?;
    }
    Ok(())
}

pub(crate) fn print_declared(out: &mut Vec<u8>, declared: &Declared) -> Result<(), NoMemory>
    ensures { OnOk result
        (out.new.items ≡ out.old.items ++ text_of (show.declared_tokens declared.now)) }
{
    put_class(out, &declared.class)?;
    put(out, b"@")?;
    print_names(out, declared.names.as_slice())
}

fn print_event_attr(out: &mut Vec<u8>, attr: &EventAttr) -> Result<(), NoMemory>
    ensures { OnOk result
        (out.new.items ≡ out.old.items ++ text_of (show.event_attr_tokens attr.now)) }
{
    match attr {
        EventAttr::Fit(number) => {
            put(out, b"FITrate")?;
            put(out, b"=")?;
            put_int(out, *number)
        }
        EventAttr::Retire(number) => {
            put(out, b"retire")?;
            put(out, b"=")?;
            put_int(out, *number)
        }
        EventAttr::Engine(class) => {
            put(out, b"engine")?;
            put(out, b"=")?;
            put_class(out, class)
        }
        EventAttr::Within(time) => {
            put(out, b"within")?;
            put(out, b"=")?;
            put_time(out, *time)
        }
    }
}

pub(crate) fn print_event_attrs(out: &mut Vec<u8>, attrs: &[EventAttr]) -> Result<(), NoMemory>
    ensures { OnOk result
        (out.new.items ≡ out.old.items
        ++ text_of (show.behind (codes ",") show.event_attr_tokens attrs.now)) }
{
    for other in attrs {
        put(out, b",")?;
        print_event_attr(out, other)?;
    }
    Ok(())
}

fn print_engine_attr(out: &mut Vec<u8>, attr: &EngineAttr) -> Result<(), NoMemory>
    ensures { OnOk result
        (out.new.items ≡ out.old.items ++ text_of (show.engine_attr_tokens attr.now)) }
{
    match attr {
        EngineAttr::N(number) => {
            put(out, b"N")?;
            put(out, b"=")?;
            put_int(out, *number)
        }
        EngineAttr::T(time) => {
            put(out, b"T")?;
            put(out, b"=")?;
            put_time(out, *time)
        }
        EngineAttr::Trip(class) => {
            put(out, b"trip")?;
            put(out, b"=")?;
            put_class(out, class)
        }
    }
}

pub(crate) fn print_engine_attrs(out: &mut Vec<u8>, attrs: &[EngineAttr]) -> Result<(), NoMemory>
    ensures { OnOk result
        (out.new.items ≡ out.old.items
        ++ text_of (show.behind (codes ",") show.engine_attr_tokens attrs.now)) }
{
    for other in attrs {
        put(out, b",")?;
        print_engine_attr(out, other)?;
    }
    Ok(())
}

pub(crate) fn print_count(out: &mut Vec<u8>, count: Option<Count>) -> Result<(), NoMemory>
    ensures { OnOk result
        (out.new.items ≡ out.old.items ++ text_of (show.arrow_count_tokens count)) }
{
    match count {
        None => Ok(()),
        Some(Count::All) => {
            put(out, b"(")?;
            put(out, b"A")?;
            put(out, b")")
        }
        Some(Count::Number(number)) => {
            put(out, b"(")?;
            put_int(out, number)?;
            put(out, b")")
        }
    }
}

fn print_at(out: &mut Vec<u8>, at: &At) -> Result<(), NoMemory>
    ensures { OnOk result (out.new.items ≡ out.old.items ++ text_of (show.at_tokens at.now)) }
{
    match at {
        At::Bare => Ok(()),
        At::Down(name) => {
            put(out, b"[")?;
            put_name(out, name)?;
            put(out, b"]")
        }
        At::Number(number) => {
            put(out, b"[")?;
            put_int(out, *number)?;
            put(out, b"]")
        }
        At::Across(name) => {
            put(out, b"<")?;
            put_name(out, name)?;
            put(out, b">")
        }
    }
}

fn print_part(out: &mut Vec<u8>, part: &Part) -> Result<(), NoMemory>
    ensures { OnOk result (out.new.items ≡ out.old.items ++ text_of (show.part_tokens part.now)) }
{
    put_name(out, &part.name)?;
    print_at(out, &part.at)
}

pub(crate) fn print_parts(out: &mut Vec<u8>, parts: &[Part]) -> Result<(), NoMemory>
    ensures { OnOk result
        (out.new.items ≡ out.old.items
        ++ text_of (show.between (codes "/") show.part_tokens parts.now)) }
{
    let Some((first, others)) = parts.split_first() else {
        return Ok(());
    };
    print_part(out, first)?;
    for other in others {
        put(out, b"/")?;
        print_part(out, other)?;
    }
    Ok(())
}

// What stays from line to line of a script, and what its lines do.
use crate::again::{show_again, show_case_name, show_fronts};
use crate::{lines, names, numbers, pairs, times};
use fm_nv::Nv;
use std::alloc::Global;
use test_words::{Named, Script, ScriptFault, first_word, number_in, small_in, text_in, text_of};

/// What stays from line to line.
#[derive(Drop)]
pub struct Held {
    named: Named,
    list: Nv,
}

/// Answers a line about bytes.
fn answer_of_bytes(
    alloc: Global,
    word: &str,
    bytes: &[u8],
    out: &mut String,
) -> Result<(), ScriptFault> {
    match word {
        "taken_counted" => numbers::take_behind_count(alloc, bytes, out),
        "shape" => pairs::show_shape(alloc, bytes, out),
        "taken_list" => pairs::take_list(alloc, bytes, out),
        _ => show_again(alloc, word, bytes, out),
    }
}

/// Answers a line about a word and bytes behind it.
fn answer_of_both(
    alloc: Global,
    word: &str,
    first: &str,
    bytes: &[u8],
    out: &mut String,
) -> Result<(), ScriptFault> {
    match word {
        "taken" => numbers::take_values(first, bytes, out),
        "taken_items" => numbers::take_uncounted(alloc, small_in(first)?, bytes, out),
        _ => show_fronts(alloc, first, bytes, out),
    }
}

/// Answers a line about names.
fn answer_of_names(
    alloc: Global,
    word: &str,
    text: &str,
    out: &mut String,
) -> Result<(), ScriptFault> {
    match word {
        "class" => names::show_class(alloc, text, out),
        "pattern" => names::show_pattern(alloc, text, out),
        "match" => names::show_match(alloc, text, out),
        "path" => names::show_path(alloc, text, out),
        "under" => names::show_under(alloc, text, out),
        "classes" | "paths" | "events" => names::show_order(alloc, word, text, out),
        _ => Err(ScriptFault::Words),
    }
}

/// Answers a line about the text of a line, or about names.
fn answer_of_lines(
    alloc: Global,
    word: &str,
    text: &str,
    out: &mut String,
) -> Result<(), ScriptFault> {
    match word {
        "payload" => lines::show_payload(alloc, text, out),
        "printed" => lines::show_printed(alloc, text, out),
        "cuts" => lines::show_cuts(alloc, text, out),
        "takes" => lines::show_taken(alloc, text, out),
        _ => answer_of_names(alloc, word, text, out),
    }
}

/// Answers a line about a text.
fn answer_of_text(
    alloc: Global,
    word: &str,
    text: &str,
    out: &mut String,
) -> Result<(), ScriptFault> {
    match word {
        "put" => numbers::put_values(alloc, text, out),
        "digits" => numbers::show_meanings(text, out),
        "copied" => numbers::show_copied(alloc, text, out),
        "counted" => numbers::put_behind_count(alloc, text, out),
        "items" => numbers::put_uncounted(alloc, text, out),
        "number" => times::show_numeral(text, out),
        "moment" => times::show_moment(text, out),
        "time" => times::show_time(alloc, text, out),
        "case" => show_case_name(text, out),
        _ => answer_of_lines(alloc, word, text, out),
    }
}

/// Answers a line about the list of pairs.
fn answer_of_list(
    alloc: Global,
    list: &mut Nv,
    word: &str,
    rest: &str,
    out: &mut String,
) -> Result<(), ScriptFault> {
    match word {
        "pairs" => {
            *list = Nv::new(alloc);
            pairs::push_items(alloc, list, rest, out)
        }
        "more" => pairs::push_items(alloc, list, rest, out),
        "numbered" => match rest.parse::<u16>() {
            Ok(count) => pairs::read_numbered(alloc, count, list, out),
            Err(_) => Err(ScriptFault::Words),
        },
        "get" => pairs::show_named(alloc, list, rest, out),
        _ => pairs::show_at(alloc, list, number_in(rest)?, out),
    }
}

/// Answers a line about bytes that it writes, or about a text.
fn answer_of_written(
    alloc: Global,
    named: &Named,
    list: &Nv,
    word: &str,
    rest: &str,
    out: &mut String,
) -> Result<(), ScriptFault> {
    match word {
        "spelled" => pairs::show_spelling(alloc, list, &named.bytes_in(alloc, rest)?, out),
        "list"
        | "entry"
        | "spoken"
        | "conf"
        | "checkpoint"
        | "shape"
        | "taken_list"
        | "taken_counted" => answer_of_bytes(alloc, word, &named.bytes_in(alloc, rest)?, out),
        "taken" | "taken_items" | "fronts" => {
            let (first, words) = first_word(rest);
            let bytes = named.bytes_in(alloc, words)?;
            answer_of_both(alloc, word, first, &bytes, out)
        }
        _ => {
            let bytes = text_in(alloc, rest)?;
            answer_of_text(alloc, word, text_of(&bytes)?, out)
        }
    }
}

impl Held {
    /// No bytes have a name, and the list is empty.
    pub fn new(alloc: Global) -> Held {
        Held {
            named: Named::new(alloc),
            list: Nv::new(alloc),
        }
    }
}

impl Script for Held {
    fn answer(
        &mut self,
        rt: &HostRuntime,
        line: &str,
        out: &mut String,
    ) -> Result<(), ScriptFault> {
        let alloc = rt.alloc();
        let (word, rest) = first_word(line);
        match word {
            "bytes" => {
                self.named.define(alloc, rest)?;
                Ok(out.push_str("ok")?)
            }
            "line" => lines::show_entry(alloc, &text_in(alloc, rest)?, out),
            "stream" => lines::show_stream(alloc, &text_in(alloc, rest)?, out),
            "pairs" | "more" | "numbered" | "get" | "at" => {
                answer_of_list(alloc, &mut self.list, word, rest, out)
            }
            _ => answer_of_written(alloc, &self.named, &self.list, word, rest, out),
        }
    }
}

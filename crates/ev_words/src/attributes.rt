//! The attributes of an event or an engine statement: which stands twice, which is lacking, and
//! which is misplaced or out of range.
ghost use Rattle.std.specs.Prelude.{◌≡◌, ◌&&◌, ◌||◌, not, ◌*◌, nat_lt, count_by};
ghost use Rattle.std.specs.List.{list_any};
ghost use Rattle.fm_name.specs.Category.{category_of};
ghost use Rattle.ev_words.specs.Attributes.{fit_value, retire_value, engine_value, within_value};
ghost use Rattle.ev_words.specs.Attributes.{n_value, t_value, trip_value, repeats, lacks};
ghost use Rattle.ev_words.specs.Attributes.{is_event_attr, is_engine_attr};
ghost use Rattle.ev_words.specs.Attributes.{is_misplaced, is_odd_trip, is_from, is_odd_number};
ghost use Rattle.ev_words.specs.Attributes.{is_odd_size, unit_length, nanoseconds, is_odd_window};
ghost use Rattle.ev_words.specs.Attributes.{is_odd_time};

use crate::categories::{is_fault, is_report, is_serd, is_upset};
use ev_tree::{EngineAttr, EventAttr, TimeWord, Unit};
use fm_name::Class;

/// One or the other.
pub fn either(one: bool, other: bool) -> bool
    ensures { result ≡ (one || other) }
{
    one || other
}

/// One and the other.
pub fn both(one: bool, other: bool) -> bool
    ensures { result ≡ (one && other) }
{
    one && other
}

/// The words of the attributes of an event.
#[derive(Clone, Copy)]
pub(crate) enum EventWord {
    Fit,
    Retire,
    Engine,
    Within,
}

/// The words of the attributes of an engine.
#[derive(Clone, Copy)]
pub(crate) enum EngineWord {
    N,
    T,
    Trip,
}

/// Whether the attribute has that word.
fn is_event_attr(word: EventWord, attr: &EventAttr) -> bool
    ensures { result ≡ is_event_attr word attr.now }
{
    match word {
        EventWord::Fit => matches!(attr, EventAttr::Fit(_)),
        EventWord::Retire => matches!(attr, EventAttr::Retire(_)),
        EventWord::Engine => matches!(attr, EventAttr::Engine(_)),
        EventWord::Within => matches!(attr, EventAttr::Within(_)),
    }
}

/// Whether the attribute has that word.
fn is_engine_attr(word: EngineWord, attr: &EngineAttr) -> bool
    ensures { result ≡ is_engine_attr word attr.now }
{
    match word {
        EngineWord::N => matches!(attr, EngineAttr::N(_)),
        EngineWord::T => matches!(attr, EngineAttr::T(_)),
        EngineWord::Trip => matches!(attr, EngineAttr::Trip(_)),
    }
}

/// Whether the attribute with that word stands twice.
fn repeats_event_attr(word: EventWord, attrs: &[EventAttr]) -> bool
    ensures { result ≡ nat_lt 1 (count_by (is_event_attr word) attrs.now) }
{
    attrs
        .iter()
        .filter(|attr| is_event_attr(word, *attr))
        .count()
        > 1
}

/// Whether the attribute with that word stands twice.
fn repeats_engine_attr(word: EngineWord, attrs: &[EngineAttr]) -> bool
    ensures { result ≡ nat_lt 1 (count_by (is_engine_attr word) attrs.now) }
{
    attrs
        .iter()
        .filter(|attr| is_engine_attr(word, *attr))
        .count()
        > 1
}

/// Whether the attribute with that word stands there.
fn has_engine_attr(word: EngineWord, attrs: &[EngineAttr]) -> bool
    ensures { result ≡ list_any (is_engine_attr word) attrs.now }
{
    for attr in attrs {
        if is_engine_attr(word, attr) {
            return true;
        }
    }
    false
}

/// Whether an attribute of an event stands twice.
pub(crate) fn repeats_in_event(attrs: &[EventAttr]) -> bool
    ensures { result ≡ ((repeats fit_value attrs.now || repeats retire_value attrs.now)
        || (repeats engine_value attrs.now || repeats within_value attrs.now)) }
{
    let fit = repeats_event_attr(EventWord::Fit, attrs);
    let retire = repeats_event_attr(EventWord::Retire, attrs);
    let engine = repeats_event_attr(EventWord::Engine, attrs);
    let within = repeats_event_attr(EventWord::Within, attrs);
    either(either(fit, retire), either(engine, within))
}

/// Whether an attribute of an engine stands twice.
pub(crate) fn repeats_in_engine(attrs: &[EngineAttr]) -> bool
    ensures { result ≡ (repeats n_value attrs.now
        || (repeats t_value attrs.now || repeats trip_value attrs.now)) }
{
    let n = repeats_engine_attr(EngineWord::N, attrs);
    let t = repeats_engine_attr(EngineWord::T, attrs);
    let trip = repeats_engine_attr(EngineWord::Trip, attrs);
    either(n, either(t, trip))
}

/// Whether an engine lacks one of its attributes.
pub(crate) fn lacks_one(attrs: &[EngineAttr]) -> bool
    ensures { result ≡ (lacks n_value attrs.now ||
        (lacks t_value attrs.now || lacks trip_value attrs.now)) }
{
    let n = has_engine_attr(EngineWord::N, attrs);
    let t = has_engine_attr(EngineWord::T, attrs);
    let trip = has_engine_attr(EngineWord::Trip, attrs);
    either(!n, either(!t, !trip))
}

/// Whether the attribute may not stand at an event of this class, or names an engine that is none.
fn is_misplaced(class: &Class, attr: &EventAttr) -> bool
    ensures { result ≡ is_misplaced (category_of class.now) attr.now }
{
    match attr {
        EventAttr::Engine(engine) => !(is_upset(class) && is_serd(engine)),
        EventAttr::Within(_) => !is_report(class),
        _ => !is_fault(class),
    }
}

/// Whether one of the attributes may not stand at an event of this class.
pub(crate) fn any_misplaced(class: &Class, attrs: &[EventAttr]) -> bool
    ensures { result ≡ list_any (is_misplaced (category_of class.now)) attrs.now }
{
    for attr in attrs {
        if is_misplaced(class, attr) {
            return true;
        }
    }
    false
}

/// Whether the attribute names a trip that is no report.
fn is_odd_trip(attr: &EngineAttr) -> bool
    ensures { result ≡ is_odd_trip attr.now }
{
    match attr {
        EngineAttr::Trip(trip) => !is_report(trip),
        _ => false,
    }
}

/// Whether one of the attributes names a trip that is no report.
pub(crate) fn any_odd_trip(attrs: &[EngineAttr]) -> bool
    ensures { result ≡ list_any is_odd_trip attrs.now }
{
    for attr in attrs {
        if is_odd_trip(attr) {
            return true;
        }
    }
    false
}

/// Whether the number is from the one to the other, both included.
pub(crate) fn is_from(least: u128, most: u128, number: u128) -> bool
    ensures { result ≡ is_from least most number }
{
    least <= number && number <= most
}

/// Whether a FIT rate is not from 1 to 4,294,967,295, or a retire flag neither 0 nor 1.
fn is_odd_number(attr: &EventAttr) -> bool
    ensures { result ≡ is_odd_number attr.now }
{
    match attr {
        EventAttr::Fit(rate) => !is_from(1, 4_294_967_295, u128::from(*rate)),
        EventAttr::Retire(flag) => !is_from(0, 1, u128::from(*flag)),
        _ => false,
    }
}

/// Whether a FIT rate or a retire flag is out of range.
pub(crate) fn any_odd_number(attrs: &[EventAttr]) -> bool
    ensures { result ≡ list_any is_odd_number attrs.now }
{
    for attr in attrs {
        if is_odd_number(attr) {
            return true;
        }
    }
    false
}

/// Whether the number of events of an engine is not from 1 to 1,024.
fn is_odd_size(attr: &EngineAttr) -> bool
    ensures { result ≡ is_odd_size attr.now }
{
    match attr {
        EngineAttr::N(size) => !is_from(1, 1024, u128::from(*size)),
        _ => false,
    }
}

/// Whether a number of events of an engine is out of range.
pub(crate) fn any_odd_size(attrs: &[EngineAttr]) -> bool
    ensures { result ≡ list_any is_odd_size attrs.now }
{
    for attr in attrs {
        if is_odd_size(attr) {
            return true;
        }
    }
    false
}

/// The nanoseconds of a unit.
fn unit_length(unit: Unit) -> u64
    ensures { result ≡ unit_length unit }
{
    match unit {
        Unit::Ns => 1,
        Unit::Us => 1_000,
        Unit::Ms => 1_000_000,
        Unit::S => 1_000_000_000,
        Unit::M => 60_000_000_000,
        Unit::H => 3_600_000_000_000,
        Unit::D => 86_400_000_000_000,
    }
}

/// The length of time in nanoseconds.
pub fn nanoseconds(word: &TimeWord) -> u128
    ensures { result ≡ nanoseconds word.now }
{
    u128::from(word.number) * u128::from(unit_length(word.unit))
}

/// Whether a window is longer than 2^50 nanoseconds.
fn is_odd_window(attr: &EventAttr) -> bool
    ensures { result ≡ is_odd_window attr.now }
{
    match attr {
        EventAttr::Within(window) => !is_from(0, 1_125_899_906_842_624, nanoseconds(window)),
        _ => false,
    }
}

/// Whether a window is out of range.
pub(crate) fn any_odd_window(attrs: &[EventAttr]) -> bool
    ensures { result ≡ list_any is_odd_window attrs.now }
{
    for attr in attrs {
        if is_odd_window(attr) {
            return true;
        }
    }
    false
}

/// Whether the time of an engine is not from 1 to 2^60 nanoseconds.
fn is_odd_time(attr: &EngineAttr) -> bool
    ensures { result ≡ is_odd_time attr.now }
{
    match attr {
        EngineAttr::T(time) => !is_from(1, 1_152_921_504_606_846_976, nanoseconds(time)),
        _ => false,
    }
}

/// Whether a time of an engine is out of range.
pub(crate) fn any_odd_time(attrs: &[EngineAttr]) -> bool
    ensures { result ≡ list_any is_odd_time attrs.now }
{
    for attr in attrs {
        if is_odd_time(attr) {
            return true;
        }
    }
    false
}

//! What the attributes of an event or an engine say, with their defaults.
ghost use Rattle.std.specs.Prelude.{◌≡◌, ◌==◌, min, option_copied};
ghost use Rattle.std.specs.Option.{unwrap_or};
ghost use Rattle.ev_words.specs.Attributes.{fit_value, retire_value, engine_value, within_value};
ghost use Rattle.ev_words.specs.Attributes.{n_value, t_value, trip_value};
ghost use Rattle.ev_check.specs.Defaults.{first_by, fit_of, retire_of, within_of, n_of, t_of};

use ev_tree::{EngineAttr, EventAttr};
use ev_words::nanoseconds;
use fm_name::Class;

/// The value of the attribute, where it is `FITrate`.
fn fit_value(attr: &EventAttr) -> Option<u64>
    ensures { result ≡ fit_value attr.now }
{
    match attr {
        EventAttr::Fit(value) => Some(*value),
        _ => None,
    }
}

/// What the first `FITrate` says.
fn first_fit(attrs: &[EventAttr]) -> Option<u64>
    ensures { result ≡ first_by fit_value attrs.now }
{
    for attr in attrs {
        if let Some(value) = fit_value(attr) {
            return Some(value);
        }
    }
    None
}

/// The value of the attribute, where it is `retire`.
fn retire_value(attr: &EventAttr) -> Option<u64>
    ensures { result ≡ retire_value attr.now }
{
    match attr {
        EventAttr::Retire(value) => Some(*value),
        _ => None,
    }
}

/// What the first `retire` says.
fn first_retire(attrs: &[EventAttr]) -> Option<u64>
    ensures { result ≡ first_by retire_value attrs.now }
{
    for attr in attrs {
        if let Some(value) = retire_value(attr) {
            return Some(value);
        }
    }
    None
}

/// The value of the attribute, where it is `engine`.
fn engine_value(attr: &EventAttr) -> Option<&Class>
    ensures { option_copied result ≡ engine_value attr.now }
{
    match attr {
        EventAttr::Engine(value) => Some(value),
        _ => None,
    }
}

/// What the first `engine` says.
pub(crate) fn first_engine(attrs: &[EventAttr]) -> Option<&Class>
    ensures { option_copied result ≡ first_by engine_value attrs.now }
{
    for attr in attrs {
        if let Some(value) = engine_value(attr) {
            return Some(value);
        }
    }
    None
}

/// The value of the attribute, where it is `within`.
fn within_value(attr: &EventAttr) -> Option<u128>
    ensures { result ≡ within_value attr.now }
{
    match attr {
        EventAttr::Within(value) => Some(nanoseconds(value)),
        _ => None,
    }
}

/// What the first `within` says.
fn first_within(attrs: &[EventAttr]) -> Option<u128>
    ensures { result ≡ first_by within_value attrs.now }
{
    for attr in attrs {
        if let Some(value) = within_value(attr) {
            return Some(value);
        }
    }
    None
}

/// The value of the attribute, where it is `N`.
fn n_value(attr: &EngineAttr) -> Option<u64>
    ensures { result ≡ n_value attr.now }
{
    match attr {
        EngineAttr::N(value) => Some(*value),
        _ => None,
    }
}

/// What the first `N` says.
fn first_n(attrs: &[EngineAttr]) -> Option<u64>
    ensures { result ≡ first_by n_value attrs.now }
{
    for attr in attrs {
        if let Some(value) = n_value(attr) {
            return Some(value);
        }
    }
    None
}

/// The value of the attribute, where it is `T`.
fn t_value(attr: &EngineAttr) -> Option<u128>
    ensures { result ≡ t_value attr.now }
{
    match attr {
        EngineAttr::T(value) => Some(nanoseconds(value)),
        _ => None,
    }
}

/// What the first `T` says.
fn first_t(attrs: &[EngineAttr]) -> Option<u128>
    ensures { result ≡ first_by t_value attrs.now }
{
    for attr in attrs {
        if let Some(value) = t_value(attr) {
            return Some(value);
        }
    }
    None
}

/// The value of the attribute, where it is `trip`.
fn trip_value(attr: &EngineAttr) -> Option<&Class>
    ensures { option_copied result ≡ trip_value attr.now }
{
    match attr {
        EngineAttr::Trip(value) => Some(value),
        _ => None,
    }
}

/// What the first `trip` says.
pub(crate) fn first_trip(attrs: &[EngineAttr]) -> Option<&Class>
    ensures { option_copied result ≡ first_by trip_value attrs.now }
{
    for attr in attrs {
        if let Some(value) = trip_value(attr) {
            return Some(value);
        }
    }
    None
}

/// The FIT rate, 1 where it is not given.
pub(crate) fn fit_of(attrs: &[EventAttr]) -> u32
    ensures { result ≡ fit_of attrs.now }
{
    first_fit(attrs).unwrap_or(1).min(4_294_967_295) as u32
}

/// Whether to retire, so where it is not given.
pub(crate) fn retire_of(attrs: &[EventAttr]) -> bool
    ensures { result ≡ retire_of attrs.now }
{
    first_retire(attrs).unwrap_or(1) == 1
}

/// The nanoseconds within which reports come, five seconds where it is not given.
pub(crate) fn within_of(attrs: &[EventAttr]) -> u64
    ensures { result ≡ within_of attrs.now }
{
    first_within(attrs)
        .unwrap_or(5_000_000_000)
        .min(1_125_899_906_842_624) as u64
}

/// The number of events of an engine.
pub(crate) fn n_of(attrs: &[EngineAttr]) -> u32
    ensures { result ≡ n_of attrs.now }
{
    first_n(attrs).unwrap_or(1).min(1024) as u32
}

/// The time of an engine, in nanoseconds.
pub(crate) fn t_of(attrs: &[EngineAttr]) -> u64
    ensures { result ≡ t_of attrs.now }
{
    first_t(attrs).unwrap_or(1).min(1_152_921_504_606_846_976) as u64
}

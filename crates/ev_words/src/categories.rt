//! The categories of classes, and what may have which.
ghost use Rattle.std.specs.Prelude.{◌≡◌};
ghost use Rattle.fm_name.specs.Category.{category_of};
ghost use Rattle.ev_words.specs.Categories.{is_event, is_fault, is_upset, is_report, is_serd};
ghost use Rattle.ev_words.specs.Categories.{is_side};

use fm_name::{Category, Class};

/// Whether an event may be declared with this class.
pub(crate) fn is_event(class: &Class) -> bool
    ensures { result ≡ is_event (category_of class.now) }
{
    match class.category() {
        Some(Category::Ereport) => true,
        Some(Category::Error) => true,
        Some(Category::Fault) => true,
        Some(Category::Defect) => true,
        Some(Category::Upset) => true,
        _ => false,
    }
}

/// Whether it is the class of a fault or a defect.
pub(crate) fn is_fault(class: &Class) -> bool
    ensures { result ≡ is_fault (category_of class.now) }
{
    match class.category() {
        Some(Category::Fault) => true,
        Some(Category::Defect) => true,
        _ => false,
    }
}

/// Whether it is the class of an upset.
pub fn is_upset(class: &Class) -> bool
    ensures { result ≡ is_upset (category_of class.now) }
{
    match class.category() {
        Some(Category::Upset) => true,
        _ => false,
    }
}

/// Whether it is the class of a report.
pub(crate) fn is_report(class: &Class) -> bool
    ensures { result ≡ is_report (category_of class.now) }
{
    match class.category() {
        Some(Category::Ereport) => true,
        _ => false,
    }
}

/// Whether it is the class of an engine.
pub(crate) fn is_serd(class: &Class) -> bool
    ensures { result ≡ is_serd (category_of class.now) }
{
    match class.category() {
        Some(Category::Serd) => true,
        _ => false,
    }
}

/// Whether the class may stand on that side of an arrow: a fault, a defect, an upset or an error on
/// the left, an error or a report on the right.
pub(crate) fn is_side(left: bool, class: &Class) -> bool
    ensures { result ≡ is_side left (category_of class.now) }
{
    match class.category() {
        Some(Category::Error) => true,
        Some(Category::Ereport) => !left,
        Some(Category::Fault) => left,
        Some(Category::Defect) => left,
        Some(Category::Upset) => left,
        _ => false,
    }
}

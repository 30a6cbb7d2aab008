//! Arrays of numbers and of texts.

ghost use Rattle.std.specs.Prelude.{◌≡◌, IsTrue, length, nat_le};
ghost use Rattle.std.specs.List.{list_all};
ghost use Rattle.fm_bytes.specs.Numbers.{is_unsigned};

use crate::text::NvText;
use fm_bytes::Items;

/// An array of numbers, which contracts see as a list.
pub type NvNumbers = Items<u64>;

/// An array of texts, which contracts see as a list.
pub type NvTexts = Items<NvText>;

/// Whether an array has at most 65,535 numbers.
pub(crate) fn are_few(numbers: &NvNumbers) -> bool
    ensures few { result ≡ nat_le (length numbers.now) 65535 }
    ensures numbers { IsTrue (list_all is_unsigned numbers.now) }
{
    let items = numbers.as_slice();
    all_numbers(items);
    items.len() <= 65535
}

/// The numbers of a program have 64 bits.
fn all_numbers(items: &[u64])
    ensures { IsTrue (list_all is_unsigned items.now) }
{
    let _items = items;
}

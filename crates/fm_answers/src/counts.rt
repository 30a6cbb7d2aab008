// The texts of counts.
ghost use Rattle.std.specs.Prelude.{◌≡◌, ◌++◌, OnOk, string_bytes};
ghost use Rattle.fm_answers.specs.Replaying.{count_line, count_lines};

use fm_core::ClassCount;
use std::alloc::AllocError;
use std::fmt::Write;

/// Adds the count of one class.
fn push_count(text: &mut String, counted: &ClassCount) -> Result<(), AllocError>
    ensures { OnOk result
        (string_bytes text.new ≡ string_bytes text.old ++ count_line counted.now) }
{
    let number = counted.count;
    let class = counted.class.text();
    write!(text, "count {number} {class}\n")
}

/// Adds the counts.
pub(crate) fn push_counts(text: &mut String, counts: &[ClassCount]) -> Result<(), AllocError>
    ensures { OnOk result
        (string_bytes text.new ≡ string_bytes text.old ++ count_lines counts.now) }
{
    for counted in counts {
        push_count(text, counted)?;
    }
    Ok(())
}

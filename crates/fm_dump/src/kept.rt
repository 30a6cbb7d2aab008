//! Which moments the options keep.

ghost use Rattle.std.specs.Prelude.{◌≡◌};
ghost use Rattle.fm_dump.specs.Kept.{is_between};

/// Whether a moment lies between two, both included, where they are there.
pub fn is_between(from: Option<u64>, to: Option<u64>, moment: u64) -> bool
    ensures { result ≡ is_between from to moment }
{
    from.is_none_or(|from| from <= moment) && to.is_none_or(|to| moment <= to)
}

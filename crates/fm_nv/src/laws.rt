//! Laws of the spelling of lists.

ghost use Rattle.fm_nv.specs.Laws.{NoPrefix, ListsReadBack};

/// What `write_nv` writes reads again as the list whatever follows it, by what `read_nv` answers;
/// and no spelling of a list is a proper prefix of another's.
pub fn lists_are_read_back()
    ensures back { ListsReadBack }
    ensures prefix { NoPrefix }
{}

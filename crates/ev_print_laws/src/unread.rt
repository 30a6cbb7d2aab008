/// Why a printed tree was not read again: its text is longer than a rule file may be, the text has
/// no tree, or memory ran out.
#[derive(Clone, Copy, Debug, PartialEq, Eq)]
pub enum Unread {
    TooLong,
    Refused,
    NoMemory,
}

impl From<fm_bytes::NoMemory> for Unread {
    ghost use Rattle.std.specs.Prelude.{◌≡◌};
    ghost use Rattle.ev_print_laws.specs.declared.unread.Unread.TheVariants.{NoMemory};

    ghost from_gives = { λ _ e. e ≡ NoMemory };

    fn from(error: fm_bytes::NoMemory) -> Self {
        let fm_bytes::NoMemory = error;
        Unread::NoMemory
    }
}

//! Names of cases.

ghost use Rattle.std.specs.Prelude.{◌≡◌, IfOk};

use fm_bytes::NoMemory;

/// The name of a case: the module that opened it, and its number there. Its text is `dxM/N`.
///
/// A module's number is below 8 and a case's below 2^63.
#[derive(Clone, Copy, PartialEq, Eq, Debug)]
pub struct CaseName {
    pub module: u32,
    pub case: u64,
}

impl CaseName {
    /// The same name.
    pub fn copy(&self) -> Result<CaseName, NoMemory>
        ensures { IfOk result (λ copied. copied ≡ self.now) }
    {
        Ok(*self)
    }
}

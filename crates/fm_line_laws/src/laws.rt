//! Laws of the definitions alone.

ghost use Rattle.std.specs.Prelude.{◌≡◌, ℕ, List, Result, Ok};
ghost use Rattle.fm_entry.specs.declared.entry.Entry.{Entry};
ghost use Rattle.fm_line.specs.declared.fault.LineFault.{LineFault};
ghost use Rattle.fm_line.specs.Forms.{line_entry};
ghost use Rattle.fm_line_laws.specs.Cases.{Says};
ghost use Rattle.fm_line_laws.specs.Names.{PayloadAscends};

/// The entry of a line or its first fault is that of the cases, each with its own condition, and of
/// no other: exactly one case holds of a line.
pub fn faults_by_cases()
    ensures says { (line : List ℕ) → Says line (line_entry line) }
    ensures only { (line : List ℕ) (answer : Result Entry LineFault) → Says line answer
        → line_entry line ≡ answer }
{}

/// The names of the payload that a line gives ascend in byte order, and so do those of each list in
/// it.
pub fn names_ascend()
    ensures { (line : List ℕ) (entry : Entry) → line_entry line ≡ Ok entry → PayloadAscends entry }
{}

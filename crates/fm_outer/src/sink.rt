// Where bytes go.
ghost use Rattle.std.specs.Prelude.{ℕ, ◌≤◌, List, length, take, OnOk, OnErr};
ghost use Rattle.std.specs.declared.option.Option.{Option};
ghost use Rattle.std.specs.Io.KnownBytes.{Appends};
ghost use Rattle.fm_outer.specs.Failures.{HasCause};

use crate::Failed;

/// Bytes that are put one piece after another.
pub trait Sink {
    /// The bytes that were put, where the sink tells them.
    ghost put_bytes: { Self → Option (List ℕ) };

    /// How often the sink has failed.
    ghost failures: { Self → ℕ };

    /// Appends the piece. After `Failed` some prefix of it was appended.
    fn put(&mut self, piece: &[u8]) -> Result<(), Failed>
        ensures ok { OnOk result (Appends (put_bytes self.old) (put_bytes self.new) piece.now) }
        ensures err { OnErr result ((n : ℕ) × (n ≤ length piece.now)
            × Appends (put_bytes self.old) (put_bytes self.new) (take n piece.now)) }
        ensures cause { HasCause (failures self.old) (failures self.new) result };
}

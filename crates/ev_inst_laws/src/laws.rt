//! The laws, each as the contract of a call that does nothing.

ghost use Rattle.std.specs.Prelude.{◌≡◌, ℕ};
ghost use Rattle.fm_topo.specs.Topology.{Topology};
ghost use Rattle.ev_check.specs.CheckedFile.{CheckedFile, IsCopyOf};
ghost use Rattle.ev_check.specs.Sound.{IsSound};
ghost use Rattle.ev_graph.specs.Lawful.{GraphValue};
ghost use Rattle.ev_inst.specs.Instances.{IsGraphOf};
ghost use Rattle.ev_inst_laws.specs.Once.{DeclaresOnce};

/// A checked file declares each event once, and each engine.
pub fn a_checked_file_declares_once()
    ensures { (f : CheckedFile) → IsSound f → DeclaresOnce f }
{}

/// A checked file, and a copy of it, have one graph over a topology, and skip the same number of
/// candidates.
pub fn a_rule_file_has_one_graph()
    ensures { (f copy : CheckedFile) (topology : Topology) (a b : GraphValue) (m n : ℕ)
        → IsSound f → IsCopyOf f copy → IsGraphOf f topology a m → IsGraphOf copy topology b n
        → (a ≡ b) × (m ≡ n) }
{}

//! The laws, each as the contract of a call that does nothing.

ghost use Rattle.std.specs.Prelude.{ℕ, List};
ghost use Rattle.std.specs.declared.option.Option.{Option};
ghost use Rattle.ev_file.specs.declared.made.Made.{Made};
ghost use Rattle.fm_act.specs.Reconciled.{ActuatorState};
ghost use Rattle.fm_answers.specs.declared.status.ToolStatus.{ToolStatus};
ghost use Rattle.fm_command.specs.declared.words.Command.{Command};
ghost use Rattle.fm_esc.specs.Compiling.{AreGraphs, IsFirstPast};
ghost use Rattle.fm_esc.specs.declared.faults.GraphLimit.{GraphLimit};
ghost use Rattle.fm_logs.specs.Contents.{Contents};
ghost use Rattle.fm_logs.specs.declared.disks.DiskName.{DiskName};
ghost use Rattle.fm_sources.specs.declared.files.RuleFile.{RuleFile};
ghost use Rattle.fm_topo.specs.Topology.{Topology};
ghost use Rattle.fm_top.specs.Calls.{Does, Handed, outside_of};
ghost use Rattle.fm_top.specs.Kept.{BookAt, FirstDamage};
ghost use Rattle.fm_top.specs.Order.{Look, World};
ghost use Rattle.fm_top_laws.specs.Suiting.{AllSuit};
ghost use Rattle.fm_top_laws.specs.Valid.{FindNothing, IsDoneOrWants, IsValidRun};

use fm_outer::{Disk, Sink, Source};
use fm_sources_laws::a_rule_file_has_no_fault;

/// A call that does what `tool` does, of a run that is valid, ends with all done and its input read
/// to its end where the command reads it, or for want of memory. `act` is an actuator's state.
pub fn valid_runs_are_done<S: Source, K: Sink, D: Disk, A>()
    ensures { (act : A → ActuatorState) (words : Option Command) (old new : Handed S D A)
        (out out_now : K) (status : ToolStatus)
        → Does words (outside_of S.Source K.Sink D.Disk act old out)
        (outside_of S.Source K.Sink D.Disk act new out_now) status
        → IsValidRun words (outside_of S.Source K.Sink D.Disk act old out)
        (outside_of S.Source K.Sink D.Disk act new out_now)
        → IsDoneOrWants words
        (outside_of S.Source K.Sink D.Disk act new out_now).input status }
{}

/// Looks that what stands before suits find nothing.
pub fn suited_looks_find_nothing()
    ensures { (w : World) (order : List Look) → AllSuit w order → FindNothing w order }
{
    a_rule_file_has_no_fault();
}

/// Contents that read as a book of the modules which the texts in them make are nowhere damaged.
pub fn contents_of_a_book_are_undamaged()
    ensures { (c : Contents) (disk : DiskName) (place : ℕ) → BookAt c → FirstDamage c disk place
        → ⊥ }
{
    a_rule_file_has_no_fault();
}

/// Where all rule files come to graphs, none of them is the first past a limit.
pub fn rule_files_with_graphs_are_within_limits()
    ensures { (topo : Topology) (files : List RuleFile) (mades : List Made) (at : ℕ)
        (limit : GraphLimit) → AreGraphs topo files mades → IsFirstPast topo files at limit → ⊥ }
{}

// The top call.
ghost use Rattle.std.specs.Prelude.{◌≡◌, ◌<◌, ◌≤◌, ◌^◌, length};
ghost use Rattle.fm_command.specs.Words.{command_of};
ghost use Rattle.fm_top.specs.Calls.{Does, WorksOn, handed, names_of, outside_of};
ghost use Rattle.fm_act.specs.Reconciled.{actuator_state};

use crate::accept::accept;
use crate::admin::tell;
use crate::esc::{esc, esc_input};
use crate::explaining::explain;
use crate::fmd::fmd;
use crate::generating::{generate, put_generated};
use crate::init::init;
use crate::repairing::repair;
use fm_act::Actuator;
use fm_answers::{Stop, ToolStatus, end, replay};
use fm_command::{Command, command_of};
use fm_init::Disks;
use fm_outer::{Disk, Sink, Source};
use fm_text::ArgText;
use std::alloc::Global;

/// Does what the words say, and gives the exit status.
///
/// `accept` opens the store on the six disks, has it take each line of the input that is an entry,
/// and answers each line. `fmd -1` reads the rule files and the topology, does as `accept` over a
/// store that keeps just these, and then drains the store and moves its base, brings the actuators
/// to hold what is wanted out of use, and puts the summary. `replay` takes the entries of the input
/// into two counters in memory, answers the lines that are refused, and puts what the
/// counters come to. `init` reads the rule files, of which at most eight are handed in, and the
/// topology, and makes a store of them and of the namespace. `esc` reads them and puts what each
/// rule file comes to over the topology: a line of its sizes, or with `-b` its compiled file.
/// `esc -l` reads compiled files from the input, and puts the line of each, up to the first bad
/// one. `fmadm faulty` opens the store with the modules of what it keeps, drains it, and puts
/// what is faulty in the drained book; `fmadm config` does so too, and puts the namespace and what
/// the rule files come to; `fmdump` puts the words about cases that its options keep, or with `-e`
/// the entries since the last rotation; `fmadm rotate` goes on with the other error journal, moves
/// the base to the end, and puts it. `fmadm repaired`, `fmadm replaced` and `fmadm acquit` drain
/// the store, accept what was said where it marks a suspect of the drained book, drain it again,
/// bring the actuators to what is wanted then, and put the number of the entry. `explain` drains
/// the store, and puts of the case with a UUID what each suspect accounts for. `gen` has the store
/// take the entries that a number generates, of the reports that the configuration in force comes
/// to, and does then as `fmd -1` behind its input; `gen -l` puts the lines of these entries. Of a
/// command that stops, the last line says why. Nothing else is touched. `now` is the moment of the
/// call, in nanoseconds since 1970, which is that of what an operator says.
pub fn tool<S: Source, K: Sink, D: Disk>(
    alloc: Global,
    words: &[ArgText],
    input: &mut S,
    rules: &mut [S],
    topo: &mut S,
    out: &mut K,
    disks: &mut Disks<D>,
    acts: &mut [Box<dyn Actuator + Send>],
    now: u64,
) -> ToolStatus
    requires moment { now < 2 ^ 62 }
    requires few { length rules.old ≤ 8 }
    ensures does { Does (command_of words.now now)
        (outside_of S.Source K.Sink D.Disk
        (λ a. actuator_state (kind_text a) (held a) (act_failures a))
        (handed input.old rules.old topo.old disks.old acts.old) out.old)
        (outside_of S.Source K.Sink D.Disk
        (λ a. actuator_state (kind_text a) (held a) (act_failures a))
        (handed input.new rules.new topo.new disks.new acts.new) out.new) result }
    ensures works_on { WorksOn (command_of words.now now)
        (handed input.old rules.old topo.old disks.old acts.old)
        (handed input.new rules.new topo.new disks.new acts.new) }
    ensures same_disks { names_of D.name disks.new ≡ names_of D.name disks.old }
{
    let command = match command_of(alloc, words, now) {
        Ok(command) => command,
        Err(_) => return end(alloc, Err(Stop::Memory), out),
    };
    match command {
        Some(Command::Accept) => end(alloc, accept(alloc, input, out, disks), out),
        Some(Command::Fmd) => end(alloc, fmd(alloc, input, rules, topo, out, disks, acts), out),
        Some(Command::Replay) => end(alloc, replay(alloc, input, out), out),
        Some(Command::Init(namespace)) => end(
            alloc,
            init(alloc, namespace, rules, topo, disks),
            out,
        ),
        Some(Command::Esc(form)) => end(alloc, esc(alloc, form, rules, topo, out), out),
        Some(Command::EscInput) => end(alloc, esc_input(alloc, input, out), out),
        Some(Command::Admin(asked)) => end(alloc, tell(alloc, asked, out, disks), out),
        Some(Command::Repair(request)) => end(alloc, repair(alloc, request, out, disks, acts), out),
        Some(Command::Explain(uuid)) => end(alloc, explain(alloc, uuid, out, disks), out),
        Some(Command::Generate(number)) => end(
            alloc,
            generate(alloc, number, out, disks, acts),
            out,
        ),
        Some(Command::GeneratedLines(number)) => end(
            alloc,
            put_generated(alloc, number, out, disks),
            out,
        ),
        None => end(alloc, Err(Stop::Usage), out),
    }
}

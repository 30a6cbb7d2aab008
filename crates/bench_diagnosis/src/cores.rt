// A core of two modules that takes the entries of lines.
ghost use Rattle.std.specs.Prelude.{◌≡◌, [], ◌∷◌, IfOk};
ghost use Rattle.fm_core.specs.Seen.{seen};
ghost use Rattle.test_text_modules.specs.Alike.{AreTwins};
ghost use Rattle.bench_diagnosis.specs.Twos.{IsTwo, hand_of};

use fm_core::{Core, Hand, Module};
use fm_line::read_line;
use std::alloc::Global;
use test_words::ScriptFault;

/// Hands of two modules, numbered 0 and 1, that have taken nothing.
fn hands_of<M: Module>(alloc: Global, first: M, second: M) -> Result<Vec<Hand<M>>, ScriptFault>
    requires first { (M.meaning first).own ≡ 0 }
    requires second { (M.meaning second).own ≡ 1 }
    ensures { IfOk result (λ hands. hands.items ≡ hand_of 0 first ∷ hand_of 1 second ∷ []) }
{
    let mut hands = Vec::new(alloc);
    hands.push(Hand::new(0, 0, first))?;
    hands.push(Hand::new(1, 0, second))?;
    Ok(hands)
}

/// A core of two modules, each handed over twice.
pub fn core_of<M: Module>(
    alloc: Global,
    first: (M, M),
    second: (M, M),
) -> Result<Core<M>, ScriptFault>
    requires first { AreTwins M.Module 0 first.0 first.1 }
    requires second { AreTwins M.Module 1 second.0 second.1 }
    ensures { IfOk result (λ core. IsTwo (seen M.Module core)) }
{
    let own = hands_of(alloc, first.0, second.0)?;
    let kept = hands_of(alloc, first.1, second.1)?;
    Ok(Core::new(alloc, 0, own, kept)?)
}

/// Takes in the entry of a line.
pub fn accept<M: Module>(alloc: Global, core: &mut Core<M>, line: &str) -> Result<(), ScriptFault>
    requires { IsTwo (seen M.Module core.old) }
    ensures { IsTwo (seen M.Module core.new) }
{
    let Ok(entry) = read_line(alloc, line.as_bytes()) else {
        return Err(ScriptFault::NoSpelling);
    };
    if core.len() >= 1 << 46 {
        return Err(ScriptFault::NoSpelling);
    }
    core.accept(entry)?;
    Ok(())
}

//! Where the configurations of a store stand in their journal.

ghost use Rattle.std.specs.Prelude.{◌≡◌, ◌≤◌, All, length};
ghost use Rattle.fm_looks.specs.Looks.{AreKeptConfs};
ghost use Rattle.fm_saved.specs.Confs.{IsSpelledConf, conf_bytes};
ghost use Rattle.fm_modules.specs.Opening.{conf_gate};

use fm_saved::Conf;

/// How many bytes spell a configuration.
fn conf_len(conf: &Conf) -> u64
    requires { IsSpelledConf conf.now }
    ensures { result ≡ length (conf_bytes conf.now) }
{
    let mut count = 21 + conf.topo.get().len() as u64;
    'rules: for text in conf.rules.as_slice() {
        count += 4 + text.get().len() as u64;
    }
    count
}

/// The place of the gate of a configuration's payload.
pub(crate) fn gate_of(confs: &[Conf], number: usize) -> u64
    requires kept { AreKeptConfs confs.now }
    requires there { number ≤ length confs.now }
    ensures { result ≡ conf_gate confs.now number }
{
    let mut place = 16;
    'confs: for conf in &confs[..number] {
        place += 5 + conf_len(conf);
    }
    place
}

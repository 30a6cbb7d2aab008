// Whether a kept configuration is what was read of the sources.
ghost use Rattle.std.specs.Prelude.{◌≡◌, ◌↔◌, IsTrue, map};
ghost use Rattle.fm_top.specs.Kept.{IsAsRead};

use fm_saved::{Conf, ConfText};
use fm_sources::{RuleFile, Sources};

/// Whether the text is that of the rule file.
fn is_text_of(text: &ConfText, file: &RuleFile) -> bool
    ensures { IsTrue result ↔ (text.now ≡ file.now.text.items) }
{
    text.get() == file.text.as_slice()
}

/// Whether the texts are those of the rule files, in order.
fn are_texts_of(texts: &[ConfText], files: &[RuleFile]) -> bool
    ensures { IsTrue result ↔ (texts.now ≡ map (λ f. f.text.items) files.now) }
{
    if texts.len() != files.len() {
        return false;
    }
    let mut at = 0;
    'texts: while at < texts.len() {
        if !is_text_of(&texts[at], &files[at]) {
            return false;
        }
        at += 1;
    }
    true
}

/// Whether the rule files and the topology of the configuration are those that were read, byte for
/// byte.
pub(crate) fn is_as_read(conf: &Conf, got: &Sources) -> bool
    ensures { IsTrue result ↔ IsAsRead conf.now got.now }
{
    are_texts_of(conf.rules.as_slice(), got.files.as_slice())
        && conf.topo.get() == got.topo_text.as_slice()
}

//! The laws, each as the contract of a call that does nothing.

ghost use Rattle.std.specs.Prelude.{◌≡◌, ℕ, All, List, Option, None, Some};
ghost use Rattle.ev_file.specs.Files.{IsSpelledFile};
ghost use Rattle.ev_file.specs.declared.made.Made.{Made};
ghost use Rattle.fm_sources.specs.Sources.{Given};
ghost use Rattle.fm_sources.specs.declared.files.RuleFile.{RuleFile};
ghost use Rattle.fm_topo.specs.Topology.{Topology};
ghost use Rattle.fm_esc.specs.Compiling.{AreGraphs, IsCompiled};
ghost use Rattle.fm_esc.specs.InputListing.{IsListed};
ghost use Rattle.ev_listing.specs.declared.form.GraphForm.{GraphForm};
ghost use Rattle.ev_listing.specs.declared.form.GraphForm.TheVariants.{Listed, Compiled};
ghost use Rattle.fm_esc_laws.specs.ToldTexts.{AreFilesOf, TellTexts};

use fm_outer::Source;

/// Rule files of the same texts come to one list over a topology.
pub fn rule_files_come_to_one_list()
    ensures { (topo : Topology) (texts : List (List ℕ)) (files others : List RuleFile)
        (mades more : List Made) → AreFilesOf texts files → AreFilesOf texts others
        → AreGraphs topo files mades → AreGraphs topo others more → mades ≡ more }
{}

/// Sources that tell their bytes, read twice, give one text.
pub fn told_sources_compile_to_one_text<S: Source>()
    ensures { (form : GraphForm) (old new other : Given S) (text more : List ℕ)
        → TellTexts S.Source old → IsCompiled S.Source form old new text
        → IsCompiled S.Source form old other more → text ≡ more }
{}

/// What the rule files of sources come to always has a spelling.
pub fn compiled_files_are_spelled<S: Source>()
    ensures { (form : GraphForm) (old new : Given S) (text : List ℕ)
        (put : IsCompiled S.Source form old new text) → All IsSpelledFile put.mades }
{}

/// The text that is compiled of sources that tell their bytes lists, to its end, as the lines that
/// are put of the same sources.
pub fn compiled_text_lists_as_its_rules<S: Source>()
    ensures { (old new other : Given S) (text lines listed : List ℕ) (input rest : S)
        (bad : Option ℕ) → TellTexts S.Source old → IsCompiled S.Source Compiled old new text
        → IsCompiled S.Source Listed old other lines → S.left input ≡ Some text
        → IsListed S.Source input rest listed bad → (bad ≡ None) × (listed ≡ lines) }
{}

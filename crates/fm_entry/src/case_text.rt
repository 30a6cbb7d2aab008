//! Reading a case name.

ghost use Rattle.std.specs.Prelude.{◌≡◌, ◌<◌, position, IfSome, Some};
ghost use Rattle.fm_entry.specs.CaseText.{case_text, is_slash, case_of, case_numbers, case_named};
ghost use Rattle.fm_entry.specs.Entries.{IsCaseName};

use crate::case_name::CaseName;
use fm_bytes::read_numeral;

/// The place of the first slash.
fn slash_place(text: &[u8]) -> Option<usize>
    ensures { result ≡ position is_slash text.now }
{
    text.iter().position(|b| *b == b'/')
}

/// The case name of two numbers, where both are there.
fn case_of(module: Option<u64>, case: Option<u64>) -> Option<CaseName>
    requires { IfSome «module» (λ m. m < 8) }
    ensures { result ≡ case_of «module» case }
{
    let module = module? as u32;
    let case = case?;
    Some(CaseName { module, case })
}

/// The case name of what follows `dx`.
fn case_numbers(text: &[u8]) -> Option<CaseName>
    ensures { result ≡ case_numbers text.now }
{
    let at = slash_place(text)?;
    case_of(
        read_numeral(&text[..at], 7),
        read_numeral(&text[at + 1..], (1 << 63) - 1),
    )
}

/// The case name that a text is, by what follows `dx`.
#[tactic(auto, unfolding(crate::specs::CaseText::case_named))]
fn case_named(text: &str) -> Option<CaseName>
    ensures { result ≡ case_named text.now }
{
    match text.strip_prefix("dx") {
        Some(numbers) => case_numbers(numbers.as_bytes()),
        None => None,
    }
}

/// The case name that a text is the text of. `None` exactly where it is that of none.
#[tactic(auto, using(crate::proofs::CaseTexts::named))]
pub fn read_case_name(text: &str) -> Option<CaseName>
    ensures value { result ≡ case_named text.now }
    ensures spelled { IfSome result (λ name. (text.now ≡ case_text name) × IsCaseName name) }
    ensures read { (name : CaseName) → text.now ≡ case_text name → IsCaseName name
        → result ≡ Some name }
{
    case_named(text)
}

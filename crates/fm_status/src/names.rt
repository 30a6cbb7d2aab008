//! The names by which cases are known outside.

ghost use Rattle.std.specs.Prelude.{◌≡◌};
ghost use Rattle.fm_status.specs.Names.{case_uuid};

use arrayvec::ArrayString;
use fm_entry::CaseName;
use itoa::Buffer;
use uuid::Uuid;

/// The UUID of a case: version 5 (RFC 9562) of the text `dxM/N` of its name under a namespace of
/// sixteen bytes.
#[tactic(auto, unfolding(crate::specs::Names::case_uuid))]
pub fn uuid_of(namespace: &[u8; 16], case: &CaseName) -> Uuid
    ensures { result ≡ case_uuid namespace.now case.now }
{
    let mut text = ArrayString::<40>::new();
    text.push_str("dx");
    text.push_str(Buffer::new().format(case.module));
    text.push_str("/");
    text.push_str(Buffer::new().format(case.case));
    Uuid::new_v5(&Uuid::from_bytes(*namespace), text.as_bytes())
}

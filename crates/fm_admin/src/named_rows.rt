//! The rows of a status by the UUIDs of their cases.

ghost use Rattle.std.specs.List.{find};
ghost use Rattle.std.specs.Option.{option_map};
ghost use Rattle.std.specs.Prelude.{◌≡◌};
ghost use Rattle.fm_admin.specs.Rows.{has_uuid};

use fm_entry::{CaseName, ListEvent};
use fm_status::uuid_of;
use uuid::Uuid;

/// Whether the case has the UUID.
fn has_uuid(namespace: &[u8; 16], uuid: &Uuid, case: &CaseName) -> bool
    ensures { result ≡ has_uuid namespace.now uuid.now case.now }
{
    uuid_of(namespace, case).as_bytes().as_slice() == uuid.as_bytes().as_slice()
}

/// The first row whose case has the UUID.
pub(crate) fn find_row<'a>(
    namespace: &[u8; 16],
    uuid: &Uuid,
    rows: &'a [&'a ListEvent],
) -> Option<&'a &'a ListEvent>
    ensures { option_map (λ row. row.now) result
        ≡ find (λ row. has_uuid namespace.now uuid.now row.now.case) rows.now }
{
    rows.iter().find(|row| has_uuid(namespace, uuid, &row.case))
}

//! Laws of the tests of cases.

ghost use Rattle.dx_explain.specs.CaseLaws.{ExplainsIs, PendingIs, WaitsIs, BlamedIs};
ghost use Rattle.dx_explain.specs.CaseLaws.{BlamedAscends};

/// A root explains what was seen exactly where some story of it has just that as its reports.
pub fn explains_is()
    ensures { ExplainsIs }
{}

/// A report is pending exactly where some story, of some root, that has all that was observed and
/// no report but those allowed has it too.
pub fn pending_is()
    ensures { PendingIs }
{}

/// A case waits exactly where some report is pending.
pub fn waits_is()
    ensures { WaitsIs }
{}

/// A node is blamed exactly where it is of the kind and explains what was observed; those that are
/// blamed are in event order.
pub fn blamed_is()
    ensures members { BlamedIs }
    ensures ascend { BlamedAscends }
{}

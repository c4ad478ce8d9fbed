//! Journals that only the laws of answers refuse: each passes the tests of all other laws.

ghost use Rattle.law_runs.specs.Refused.{OnlyBusyRefuses, OnlyCallsRefuse, OnlyCausesRefuse, OnlyDeedsRefuse, OnlyFormsRefuse};

/// A journal in which a write is answered ok and has vanished passes the tests of all other laws, and this one refuses it.
pub fn only_deeds_refuse()
    ensures { OnlyDeedsRefuse }
{}

/// A journal with an answer to a call that nobody made passes the tests of all other laws, and is refused since each answer is
/// of its call.
pub fn only_calls_refuse()
    ensures { OnlyCallsRefuse }
{}

/// A journal in which a call is answered busy late passes the tests of all other laws, and is refused since busy is said at once.
pub fn only_busy_refuses()
    ensures { OnlyBusyRefuses }
{}

/// A journal in which an attached client with no open call answers busy passes the tests of all other laws, and is refused since busy has
/// its cause at its call.
pub fn only_causes_refuse()
    ensures { OnlyCausesRefuse }
{}

/// A journal in which a lookup is told `exists` passes the tests of all other laws, and is refused since a refusal has a form that its
/// call can have.
pub fn only_forms_refuse()
    ensures { OnlyFormsRefuse }
{}

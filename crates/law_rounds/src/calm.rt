//! What keeps a calm delivery short, and a call from being forgotten: facts of single steps, and of each run. They stand on functions with
//! empty bodies, whose proofs stand in `proofs/`.

ghost use Rattle.law_rounds.specs.CallsGoOn.{CallsGoOn};
ghost use Rattle.law_rounds.specs.EndsSoon.{RecoveriesEndSoon, RowsEndSoon};
ghost use Rattle.law_rounds.specs.NamedRows.{NamedRowsAreToGo};
ghost use Rattle.law_rounds.specs.NoticesMark.{NoticesMarkRows};
ghost use Rattle.law_rounds.specs.RequestsAreMeant.{RequestsAreMeant};
ghost use Rattle.law_rounds.specs.SendsAgain.{NoticesAreAnsweredAtOnce};
ghost use Rattle.law_rounds.specs.SharedFiles.{SharedFilesStayShared};
ghost use Rattle.law_rounds.specs.SharingRows.{RowsToGoCache, SharingRowsStay, WhoAsksHasRow, WhoIsPutOffShares};
ghost use Rattle.law_rounds.specs.Turns.{TurnsFall};

/// Where a host has a row of a file that does not let it cache, nobody's row comes to let him cache the file by a datagram.
pub fn shared_files_stay_shared()
    ensures { SharedFilesStayShared }
{}

/// The row that a notice names is marked as one that is to go.
pub fn notices_mark_rows()
    ensures { NoticesMarkRows }
{}

/// In every run a client that has an open call pauses or has a request under way; no pause is longer than 2 ticks, and each request
/// under way is sent again 2 ticks after it was sent last. A client that is not attached asks to be.
pub fn calls_go_on()
    ensures { CallsGoOn }
{}

/// In every run each row of the lease table ends no later than the longest term and the skew from now on, unless it is renewed.
pub fn rows_end_soon()
    ensures { RowsEndSoon }
{}

/// In every run a recovery ends no later than the kept longest term, the skew and the write slack from now on, unless a write is stored
/// in it.
pub fn recoveries_end_soon()
    ensures { RecoveriesEndSoon }
{}

/// In every run a row whose latest tag was named, in a notice or in a VACATED, is to go: it is not granted again.
pub fn named_rows_are_to_go()
    ensures { NamedRowsAreToGo }
{}

/// In every run a request that wants a lease for a call is of the call that is under way, and wants what that call needs.
pub fn requests_are_meant()
    ensures { RequestsAreMeant }
{}

/// In every run a client whose call's request a notice cancels gives the lease up and sends the same request again, right behind, unless it
/// pauses or has delayed writes to send first.
pub fn notices_are_answered_at_once()
    ensures { NoticesAreAnsweredAtOnce }
{}

/// In every run a row that its holder is told to give up lets him cache.
pub fn rows_to_go_cache()
    ensures { RowsToGoCache }
{}

/// In every run a row that does not let its holder cache stays so, whatever packet is delivered but a REMOVE of the file and an ATTACH of the
/// host.
pub fn sharing_rows_stay()
    ensures { SharingRowsStay }
{}

/// Whoever wants a lease and is put off shares the file then, where the table had room for one more, and he had no row that let him cache.
pub fn who_is_put_off_shares()
    ensures { WhoIsPutOffShares }
{}

/// In every run a client has fewer turns left after whatever it hears, but for notices that it answers by VACATED alone, or by VACATED and
/// the same request.
pub fn turns_fall()
    ensures { TurnsFall }
{}

/// Whoever wants a lease has a row of the file then, whatever he is told, where the table had room for one more.
pub fn who_asks_has_row()
    ensures { WhoAsksHasRow }
{}

//! What replies and answers tell. Each law stands on a function with an empty body, whose clause is the law and whose proof stands
//! in `proofs/`.

ghost use Rattle.nq_laws.specs.ToldMet.{NoRoomIsMet, RefusalsAreMet, TellingsAreMet};
ghost use Rattle.nq_model.specs.laws.LossesAreNamed.{LossesAreNamedInEveryRun};
ghost use Rattle.nq_laws.specs.RefusalsHaveCauses.{RefusalsHaveCauses};
ghost use Rattle.nq_laws.specs.RefusedAnswers.{OnlyMomentsRefuse, OnlyNamesRefuse, OnlyRangesRefuse};
ghost use Rattle.nq_model.specs.laws.AnswersHaveCauses.{AnswersHaveCauses};
ghost use Rattle.nq_model.specs.laws.AnswersTellWhatWas.{AnswersTellWhatWas};
ghost use Rattle.nq_model.specs.laws.FullHasItsCause.{FullHasItsCause};
ghost use Rattle.nq_model.specs.laws.RefusalsAreOfTheirCalls.{RefusalsAreOfTheirCallsInEveryRun};
ghost use Rattle.nq_model.specs.laws.RepliesTellWhatWas.{RepliesTellWhatWas};

/// After every schedule, what a reply to LOOKUP, CREATE or GETATTR tells of a file was so at the server at some moment when the
/// request had been sent: the file of that name had that id, or the file had that length and that revision.
pub fn replies_tell_what_was()
    ensures { RepliesTellWhatWas }
{}

/// After every schedule within skew, what an `ok` to `lookup`, `create` or `attr` tells was so at the server at some moment between the
/// call and the answer: the file of that name had that id, or the file had that length.
pub fn answers_tell_what_was()
    ensures { AnswersTellWhatWas }
{}

/// After every schedule, what a refusal says stood at the server at some moment when the request had been sent: NOENT that no file of
/// that name was kept, STALE that no file of that id was, EXIST that one of that name was, INVAL that the file had no such block,
/// or that no file can have such a length, and NOSPC that there was no room: too many files, blocks or ids.
pub fn refusals_have_causes()
    ensures { RefusalsHaveCauses }
{}

/// After every schedule within skew, what an answer that refuses says stood at the server at some moment between the call and the answer:
/// `noentry` that no file of the name was kept, `stale` that no file of the id was, `exists` that one of the name was, and `nospace` that
/// there was no room. `range` is said to `create` and `resize` with a length that no file can have, and to a call that reads or writes a
/// block where the file had, at some moment between the call and the answer, no such block.
pub fn answers_have_causes()
    ensures { AnswersHaveCauses }
{}

/// After every schedule within skew, a refusal has a form that the call can have: `noentry` is said to `lookup` alone, `exists` to `create`
/// alone, `stale` to a call that speaks of a file, `nospace` to `create` and `resize`, and `range` to those and to reads and writes.
pub fn refusals_are_of_their_calls()
    ensures { RefusalsAreOfTheirCallsInEveryRun }
{}

/// After every schedule within skew, `dirtyfull` has its cause at some moment between the call and the answer: as many blocks of the client
/// were delayed or under way as there may be.
pub fn full_has_its_cause()
    ensures { FullHasItsCause }
{}

/// After every schedule within skew, `lost` names some write.
pub fn losses_are_named()
    ensures { LossesAreNamedInEveryRun }
{}

/// There is such a schedule: a client makes a file, looks it up and asks for its attributes.
pub fn tellings_are_met()
    ensures { TellingsAreMet }
{}

/// There is such a schedule: a client asks for a file where there are as many as can be kept.
pub fn no_room_is_met()
    ensures { NoRoomIsMet }
{}

/// There is such a schedule: a client asks for a name and a file that are not there, makes a file twice, and asks for one of no block.
pub fn refusals_are_met()
    ensures { RefusalsAreMet }
{}

/// In the journal of a run a lookup behind the making of its file is told `noentry` instead: that passes the tests of all other laws, and
/// is refused since the name was there from the call to the answer.
pub fn only_moments_refuse()
    ensures { OnlyMomentsRefuse }
{}

/// In the journal of a run a fetch behind the resize that made its block is told `range` instead: that passes the tests of all other laws,
/// and is refused since the file had that block from the call to the answer.
pub fn only_ranges_refuse()
    ensures { OnlyRangesRefuse }
{}

/// A journal in which `lost` names nothing passes the tests of all other laws, and is refused since `lost` names some write.
pub fn only_names_refuse()
    ensures { OnlyNamesRefuse }
{}

//! The rows with which an asker is entered, and the grants that it gets.

ghost use Rattle.std.specs.Prelude.{◌≡◌, ◌+◌, ◌^◌, ◌<◌};
ghost use Rattle.nq_model.specs.protocol.Ask.{term_of, grant_of, sharing_row, caching_row, shared_again, renewed_row};
ghost use Rattle.nq_model.specs.protocol.Table.{greater_mode};

use crate::Table;
use nq_base::{Grant, Mode, Question, Row, Ticks, Want};

/// The shortest term, in ticks.
const SHORTEST_TERM: u32 = 5;

/// How much longer than its term a caching lease stands in the table, in ticks, since clocks differ (Macklem 1994).
const SKEW: u64 = 3;

/// The term that is granted on a want: the wanted one, moved into 5 to the longest.
pub(crate) fn granted_term(question: &Question, want: &Want) -> u32
    ensures { result ≡ term_of question.now want.now }
{
    want.term.min(question.longest).max(SHORTEST_TERM)
}

/// The greater of two kinds of lease.
fn greater(mode: Mode, other: Mode) -> Mode
    ensures { result ≡ greater_mode mode other }
{
    match mode {
        Mode::NonCaching => other,
        Mode::Reading => match other {
            Mode::Writing => Mode::Writing,
            Mode::NonCaching | Mode::Reading => Mode::Reading,
        },
        Mode::Writing => Mode::Writing,
    }
}

/// The grant of a row as it then stands.
#[tactic(auto, unfolding(nq_model::specs::protocol::Ask::grant_of))]
pub(crate) fn grant(question: &Question, row: &Row, term: u32) -> Grant
    ensures { result ≡ grant_of question.now row.now term }
{
    Grant {
        mode: row.mode,
        term,
        tag: row.tag,
        since: row.since,
        rev: question.rev,
        blocks: question.blocks,
    }
}

/// A new non-caching row of the asker.
#[tactic(auto, unfolding(nq_model::specs::protocol::Ask::sharing_row))]
pub(crate) fn sharing(table: &Table, question: &Question, term: u32) -> Row
    requires drawn { table.now.drawn < 2 ^ 63 }
    requires early { question.now.time < 2 ^ 62 }
    ensures { result ≡ sharing_row table.now question.now term }
{
    let tag = table.peek_tag();
    let time = question.time.0;
    Row {
        file: question.file,
        who: question.who,
        mode: Mode::NonCaching,
        tag,
        since: tag,
        until: Ticks(time + u64::from(term)),
        heard: Ticks(time),
        evicting: false,
    }
}

/// A new row of the asker, of the kind that is wanted.
#[tactic(auto, unfolding(nq_model::specs::protocol::Ask::caching_row))]
pub(crate) fn caching(table: &Table, question: &Question, mode: Mode, term: u32) -> Row
    requires drawn { table.now.drawn < 2 ^ 63 }
    requires early { question.now.time < 2 ^ 62 }
    ensures { result ≡ caching_row table.now question.now mode term }
{
    let tag = table.peek_tag();
    let time = question.time.0;
    Row {
        file: question.file,
        who: question.who,
        mode,
        tag,
        since: tag,
        until: Ticks(time + u64::from(term) + SKEW),
        heard: Ticks(time),
        evicting: false,
    }
}

/// The asker's non-caching row with a fresh tag.
#[tactic(auto, unfolding(nq_model::specs::protocol::Ask::shared_again))]
pub(crate) fn sharing_again(table: &Table, own: &Row) -> Row
    requires { table.now.drawn < 2 ^ 63 }
    ensures { result ≡ shared_again table.now own.now }
{
    let tag = table.peek_tag();
    Row {
        tag,
        since: tag,
        ..*own
    }
}

/// The asker's caching row with a fresh tag, of the greater kind and until the later time. Where it becomes writing, a
/// write counts as heard now.
#[tactic(auto, unfolding(nq_model::specs::protocol::Ask::renewed_row))]
pub(crate) fn renewed(table: &Table, question: &Question, own: &Row, mode: Mode, term: u32) -> Row
    requires drawn { table.now.drawn < 2 ^ 63 }
    requires early { question.now.time < 2 ^ 62 }
    ensures { result ≡ renewed_row table.now question.now own.now mode term }
{
    let time = question.time.0;
    let until = own.until.0;
    let becomes_writing = matches!(mode, Mode::Writing) && !matches!(own.mode, Mode::Writing);
    Row {
        mode: greater(own.mode, mode),
        tag: table.peek_tag(),
        until: Ticks(until.max(time + u64::from(term) + SKEW)),
        heard: if becomes_writing {
            question.time
        } else {
            own.heard
        },
        ..*own
    }
}

//! What answers bring.

ghost use Rattle.std.specs.Prelude.{◌≡◌, option_map};
ghost use Rattle.nq_whole.specs.Answers.{body_in, file_in, is_done, is_gone};

use nq_base::{Answer, Block, FileId, Value};

/// The file that an answer brings.
pub(crate) fn file_in(answer: &Answer) -> Option<FileId>
    ensures { result ≡ file_in answer.now }
{
    match answer {
        Answer::Ok(value) => match value {
            Value::File(file) => Some(*file),
            _ => None,
        },
        _ => None,
    }
}

/// The block that an answer brings.
pub(crate) fn body_in(answer: &Answer) -> Option<&Block>
    ensures { option_map (λ body. body.now) result ≡ body_in answer.now }
{
    match answer {
        Answer::Ok(value) => match value {
            Value::Body(body) => Some(body),
            _ => None,
        },
        _ => None,
    }
}

/// Whether an answer says that the file is gone.
pub(crate) fn is_gone(answer: &Answer) -> bool
    ensures { result ≡ is_gone answer.now }
{
    matches!(answer, Answer::Stale)
}

/// Whether a call was done.
pub(crate) fn is_done(answer: &Answer) -> bool
    ensures { result ≡ is_done answer.now }
{
    matches!(answer, Answer::Ok(_))
}

//! Answers as a journal tells them.

ghost use Rattle.std.specs.Prelude.{◌≡◌, None};
ghost use Rattle.nq_base.specs.Plain.{plain_answer, plain_said};
ghost use Rattle.nq_model.specs.protocol.Hear.{answer_of};
ghost use Rattle.nq_model.specs.protocol.Settle.{said, said_body, said_value};

use nq_base::{Answer, Block, Refusal, Said, Value};

/// What an answer brings, as a journal tells it.
pub fn said_value(value: &Value, served: Option<u64>) -> Said
    ensures { plain_said result ≡ said_value value.now served }
{
    match value {
        Value::Nothing => Said::Ok,
        Value::File(file) => Said::OkValue(file.0),
        Value::Blocks(blocks) => Said::OkValue(*blocks),
        Value::Body(body) => said_body(body, served),
    }
}

/// A block that was read, as a journal tells it: one that the server served names its packet.
fn said_body(body: &Block, served: Option<u64>) -> Said
    ensures { plain_said result ≡ said_body body.now served }
{
    let value = body.value();
    match served {
        Some(packet) => Said::OkBy { value, packet },
        None => Said::OkValue(value),
    }
}

/// What a refusal means for the call under way, and how a journal tells it.
pub fn answer_of(status: Refusal) -> (Answer, Said)
    ensures answer { plain_answer result.0 ≡ answer_of status }
    ensures told { plain_said result.1 ≡ said (answer_of status) None }
{
    match status {
        Refusal::NoEnt => (Answer::NoEntry, Said::NoEntry),
        Refusal::Exist => (Answer::Exists, Said::Exists),
        Refusal::Inval => (Answer::Range, Said::Range),
        Refusal::NoSpc => (Answer::NoSpace, Said::NoSpace),
        Refusal::Stale => (Answer::Stale, Said::Stale),
        Refusal::TryLater | Refusal::Fenced | Refusal::NotAttached | Refusal::Old => {
            (Answer::Busy, Said::Busy)
        }
    }
}

//! Laws of the spellings of messages, for every message.

ghost use Rattle.std.specs.Prelude.{◌≡◌, ℕ, List, [], ◌++◌, length};
ghost use Rattle.nq_xdr.specs.declared.rpc.message.CallMessage.{CallMessage};
ghost use Rattle.nq_xdr.specs.declared.rpc.message.Outcome.TheVariants.{Success};
ghost use Rattle.nq_xdr.specs.declared.rpc.message.ReplyMessage.{ReplyMessage};
ghost use Rattle.nq_xdr.specs.declared.rpc.message.Message.{Message};
ghost use Rattle.nq_xdr.specs.declared.rpc.message.Message.TheVariants.{Call, Reply};
ghost use Rattle.nq_xdr.specs.Message.{Auth, null, spelling, spelling_len, IsMessage, IsError, IsSpelled};

/// How many bytes are written for a message.
pub fn lengths()
    ensures { (m : Message) → length (spelling m null null) ≡ spelling_len m }
{}

/// What is written for a message whose numbers are words spells it, so `decode` reads it again.
pub fn what_is_written_is_spelled()
    ensures { (m : Message) → IsMessage m → IsSpelled m (spelling m null null) }
{}

/// Bytes spell at most one message, whatever its credential and its verifier are.
pub fn bytes_spell_one_message()
    ensures { (m n : Message) (bytes : List ℕ) → IsSpelled m bytes → IsSpelled n bytes → m ≡ n }
{}

/// No error reply begins another message.
pub fn error_replies_end()
    ensures { (r : ReplyMessage) (m : Message) (bytes rest : List ℕ) → IsError r.outcome → IsSpelled (Reply r) bytes → IsSpelled m (bytes ++ rest) → rest ≡ [] }
{}

/// What stands behind a call or a reply with results belongs to its arguments or results.
pub fn bodies_run_to_the_end()
    ensures calls { (m : CallMessage) (credential verifier : Auth) (rest : List ℕ)
        → spelling (Call m) credential verifier ++ rest ≡ spelling (Call (record m { arguments = m.arguments ++ rest })) credential verifier }
    ensures replies { (xid : ℕ) (results : List ℕ) (credential verifier : Auth) (rest : List ℕ)
        → spelling (Reply (record { xid = xid; outcome = Success results })) credential verifier ++ rest
        ≡ spelling (Reply (record { xid = xid; outcome = Success (results ++ rest) })) credential verifier }
{}

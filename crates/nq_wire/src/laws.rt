//! Laws of the spellings of requests and replies, for every value.

ghost use Rattle.std.specs.Prelude.{◌≡◌, ◌≤◌, ℕ, List, ◌++◌, length};
ghost use Rattle.nq_base.specs.declared.Refusal.{Refusal};
ghost use Rattle.nq_base.specs.declared.Reply.{Reply};
ghost use Rattle.nq_base.specs.declared.Request.{Request};
ghost use Rattle.nq_wire.specs.declared.procedure.Procedure.{Procedure};
ghost use Rattle.nq_wire.specs.Procedure.{number_of};
ghost use Rattle.nq_wire.specs.Status.{status_number};
ghost use Rattle.nq_wire.specs.Request.{procedure_of, arguments, arguments_len, IsRequest, HasSpelling, IsArguments};
ghost use Rattle.nq_wire.specs.Reply.{results, results_len, IsReply, Answers, IsResults};

use crate::{LONGEST_ARGUMENTS, LONGEST_RESULTS};

/// No two procedures have one number, and no two statuses.
pub fn numbers_apart()
    ensures procedures { (p q : Procedure) → number_of p ≡ number_of q → p ≡ q }
    ensures statuses { (s t : Refusal) → status_number s ≡ status_number t → s ≡ t }
{}

/// The arguments of no request begin those of another of the procedure, and bytes are the arguments of
/// at most one.
pub fn requests_apart()
    ensures begins { (r s : Request) (x y : List ℕ) → procedure_of r ≡ procedure_of s → IsRequest r → HasSpelling r
        → IsRequest s → HasSpelling s → arguments r ++ x ≡ arguments s ++ y → (r ≡ s) × (x ≡ y) }
    ensures one { (n : ℕ) (r s : Request) (bytes : List ℕ) → IsArguments n r bytes → IsArguments n s bytes → r ≡ s }
{}

/// The results of no reply begin those of another to the procedure, and bytes are the results of at most
/// one. VACATED and EVICTED have no reply.
pub fn replies_apart()
    ensures begins { (p : Procedure) (r s : Reply) (x y : List ℕ) → Answers r p → IsReply r
        → Answers s p → IsReply s → results r ++ x ≡ results s ++ y → (r ≡ s) × (x ≡ y) }
    ensures one { (n : ℕ) (r s : Reply) (bytes : List ℕ) → IsResults n r bytes → IsResults n s bytes → r ≡ s }
    ensures vacated { (r : Reply) (bytes : List ℕ) → IsResults 8 r bytes → ⊥ }
    ensures evicted { (r : Reply) (bytes : List ℕ) → IsResults 9 r bytes → ⊥ }
{}

/// How many bytes arguments and results take, and at most.
pub fn lengths()
    ensures requests { (r : Request) → IsRequest r → length (arguments r) ≡ arguments_len r }
    ensures longest_request { (r : Request) → IsRequest r → arguments_len r ≤ LONGEST_ARGUMENTS }
    ensures replies { (r : Reply) → IsReply r → length (results r) ≡ results_len r }
    ensures longest_reply { (r : Reply) → IsReply r → results_len r ≤ LONGEST_RESULTS }
{}

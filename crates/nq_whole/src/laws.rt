//! What holds however the calls of a whole file are answered.

ghost use Rattle.std.specs.Prelude.{ℕ, List, Option};
ghost use Rattle.nq_base.specs.declared.Answer.{Answer};
ghost use Rattle.nq_whole.specs.Getting.{AreLawful, HasPartAt, begun, gets_after};
ghost use Rattle.nq_whole.specs.Storing.{StandsBefore, made_from, step_after};
ghost use Rattle.nq_whole.specs.declared.storing.StoringStep.{StoringStep};

/// Whatever is answered while bytes are stored, the head is written only behind all of them: each block was stored, and answered `Ok`.
pub fn heads_come_last()
    ensures { (name own bytes : List ℕ) (answers : List Answer)
        → StandsBefore (made_from name own bytes answers StoringStep.Making) bytes (step_after bytes answers StoringStep.Making) }
{}

/// Where each head that is read tells a file that was stored to its end, and no block of such a file changes, the bytes that are got are those
/// of one file that was stored, whoever stores others meanwhile.
pub fn got_files_were_stored()
    ensures { (stored : ℕ → Option (List ℕ)) (name : List ℕ) (answers : List Answer) → AreLawful stored answers (begun name)
        → HasPartAt stored (gets_after answers (begun name)).stage (gets_after answers (begun name)).bytes }
{}

//! What is written is read.

ghost use Rattle.nq_directory.specs.Laws.{AnswersAreRead, EvictedAreRead, ReadDirsAreRead, VacatedAreRead};

/// Each message whose numbers are within their fields is read again in the bytes that are written for it.
pub fn messages_are_read()
    ensures read_dirs { ReadDirsAreRead }
    ensures evicted { EvictedAreRead }
    ensures vacated { VacatedAreRead }
    ensures answers { AnswersAreRead }
{}

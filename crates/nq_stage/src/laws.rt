//! What is written is read.

ghost use Rattle.nq_stage.specs.Laws.{CommitsAreRead, PushesAreRead, StagedIsRead, StagesAreRead, UnstagedIsRead};

/// Each message whose numbers are within their fields is read again in the bytes that are written for it. The bytes of a push
/// are those of its WRITE.
pub fn messages_are_read()
    ensures stages { StagesAreRead }
    ensures commits { CommitsAreRead }
    ensures pushes { PushesAreRead }
    ensures staged { StagedIsRead }
    ensures unstaged { UnstagedIsRead }
{}

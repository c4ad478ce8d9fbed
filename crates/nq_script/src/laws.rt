//! What holds of the grammar, whatever the program does.

ghost use Rattle.std.specs.Prelude.{◌≡◌, ◌≤◌, ◌++◌, ◌∷◌, ◌⊎◌, [], ℕ, List, length, map, codes};
ghost use Rattle.std.specs.List.{AllByRecursion};
ghost use Rattle.nq_base.specs.declared.Event.{Event};
ghost use Rattle.nq_script.specs.Heads.{FitsHead, head_lines};
ghost use Rattle.nq_script.specs.Lines.{AreSpelled, once};
ghost use Rattle.nq_script.specs.Schedule.{SpellsWhole, SpellsSchedule, FirstBadLine};
ghost use Rattle.nq_script.specs.Text.{text_of};
ghost use Rattle.nq_script.specs.declared.heads.Head.{Head};
ghost use Rattle.nq_script.specs.declared.lines.Line.{Line};

/// A text spells one schedule.
pub fn one_reading()
    ensures { (g h : Head) (ls ms : List Line) (text : List ℕ) → SpellsSchedule g ls text → SpellsSchedule h ms text → (g ≡ h) × (ls ≡ ms) }
{}

/// A text has one first line that is wrong, and none where it spells a schedule.
pub fn one_fault()
    ensures once { (text : List ℕ) (m n : ℕ) → FirstBadLine text m → FirstBadLine text n → m ≡ n }
    ensures none { (text : List ℕ) (n : ℕ) (head : Head) (lines : List Line) → SpellsSchedule head lines text → FirstBadLine text n → ⊥ }
{}

/// Each text spells a schedule, or has a first line that is wrong.
pub fn each_text()
    ensures { (text : List ℕ) → ((head : Head) × (lines : List Line) × SpellsSchedule head lines text) ⊎ ((number : ℕ) × FirstBadLine text number) }
{}

/// The text of a head, the lines of events that it allows, each with its line feed, and `end` spell these events.
pub fn printed_again()
    ensures { (head : Head) (events : List Event) (texts : List (List ℕ)) → FitsHead head → AreSpelled head events texts
        → SpellsSchedule head (map once events) (text_of (head_lines head) ++ (text_of texts ++ codes "end\n")) }
{}

/// No line of a schedule has more than 128 bytes without its line feed.
pub fn lines_are_short()
    ensures { (head : Head) (lines : List Line) (whole : List (List ℕ)) → SpellsWhole head lines whole → AllByRecursion (λ line. length line ≤ 128) whole }
{}

//! What the steps of a host did: in its diary, and the delayed writes that were lost, in words.

use nq_base::{Entry, Journal, Who};
use nq_calling::lost_text;
use nq_diary::{Diary, Noted};
use std::alloc::Global;
use std::mem;

/// From so many bytes on, no more losses are put into words before somebody has been told.
const MOST_LOST: usize = 65_536;

/// What stands before the delayed writes that were lost.
const LOST: &[u8] = b"lost: delayed writes came too late:";

/// The notes of a host.
#[derive(Drop)]
pub(crate) struct Notes {
    rt: HostRuntime,
    alloc: Global,
    diary: Diary,
    /// Whether it was said that the diary cannot be written.
    is_said: bool,
    lost: Vec<u8>,
    /// Whether memory was wanting for the losses.
    pub(crate) is_lacking: bool,
}

impl Notes {
    /// Notes in this diary.
    pub(crate) fn new(rt: HostRuntime, diary: Diary) -> Notes {
        let alloc = rt.alloc();
        Notes {
            rt,
            alloc,
            diary,
            is_said: false,
            lost: Vec::new(alloc),
            is_lacking: false,
        }
    }

    /// Notes that an incarnation begins.
    pub(crate) fn begin(&mut self, who: Who) {
        let noted = self.diary.note_one(Entry::B { who });
        self.say(noted);
    }

    /// Notes what a step did, and keeps its losses in words.
    pub(crate) fn note(&mut self, log: &Journal) {
        let noted = self.diary.note(log);
        self.say(noted);
        if self.lost.len() > MOST_LOST {
            return;
        }
        let kept = match lost_text(self.alloc, log) {
            Ok(text) if text.is_empty() => true,
            Ok(text) => self.add_lost(&text),
            Err(_) => false,
        };
        self.is_lacking = self.is_lacking || !kept;
    }

    /// Says once that the diary cannot be written, if that is so.
    fn say(&mut self, noted: Noted) {
        if matches!(noted, Noted::All) || self.is_said {
            return;
        }
        self.is_said = true;
        let rt = &self.rt;
        let _told = eprintln!(rt;
            "nqnfs_host: the journal cannot be written, so it does not tell all that is done"
        );
    }

    /// Adds losses in words. Whether there was memory for them.
    fn add_lost(&mut self, text: &[u8]) -> bool {
        let begun = !self.lost.is_empty() || self.lost.extend_from_slice(LOST).is_ok();
        begun && self.lost.extend_from_slice(text).is_ok()
    }

    /// The delayed writes that were lost since this was last asked, in words; nothing where none were.
    pub(crate) fn take_lost(&mut self) -> Vec<u8> {
        mem::replace(&mut self.lost, Vec::new(self.alloc))
    }
}

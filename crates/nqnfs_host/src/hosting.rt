//! What a host does for those who ask it, call by call.

ghost use Rattle.std.specs.Prelude.{⊤};

use crate::door::Door;
use crate::ledger::Ledger;
use crate::notes::Notes;
use crate::starts::pause;
use nq_asks::AnswerKind;
use nq_base::{Answer, Call, FileId, Journal, Name, NoMemory, Who};
use nq_living::{Askers, Paged};
use nq_tasks::{
    Ask, AskReply, Came, Desk, Listed, Made, NO_MEMORY, NOBODY, Waiting, Work, name_stored,
    own_name,
};
use std::alloc::Global;

/// The most asks that are taken up for one call.
const MOST_ASKS: u32 = 256;

/// After how many ticks without an ask it stores what is delayed.
const QUIET: u64 = 2;

/// After how many ticks without an ask, and behind the last look, it looks whether bytes that it stored are still told under their name.
const LOOKS: u64 = 10;

/// The number of the first request for a page of an incarnation. No request of a client has so great a number.
const FIRST_NUMBER: u32 = 1 << 31;

/// What is said where the host does not end, since writes are delayed.
const STILL_DELAYED: &[u8] =
    b"delayed writes are not stored yet, so the host goes on; a signal ends it, and then they are lost";

/// The number of a file, if there is one.
fn number_of(file: Option<FileId>) -> Option<u32> {
    match file {
        Some(file) => Some(file.0),
        None => None,
    }
}

/// What a host does for those who ask it.
#[derive(Drop)]
pub(crate) struct Hosting {
    rt: HostRuntime,
    alloc: Global,
    who: Who,
    door: Door,
    /// What it notes.
    pub(crate) notes: Notes,
    ledger: Ledger,
    desk: Desk,
    /// How long the ask at work, or the next one, waits.
    waiting: Waiting,
    /// How many whole files were stored.
    made: u32,
    /// How many requests for pages of lists were sent.
    listed: u32,
    /// When it was last asked.
    asked: u64,
    /// When it last looked after bytes that it stored.
    looked: u64,
}

impl Askers for Hosting {
    ghost gives = { λ _ _ _. ⊤ };

    ghost takes = { λ _ _ _. ⊤ };

    ghost notes = { λ _ _ _. ⊤ };

    ghost pages = { λ _ _ _. ⊤ };

    ghost stirs = { λ _ _. ⊤ };

    fn wait(&mut self, is_busy: bool) -> bool {
        !self.notes.is_lacking && self.door.wait(is_busy)
    }

    fn tend(&mut self) -> bool {
        self.door.let_in();
        let came = self.door.read();
        let (at_work, next) = (self.at_work(), self.desk.next_place());
        let aside = self.desk.aside_place();
        self.door.write(at_work, next, aside);
        self.hear_end();
        came
    }

    fn note(&mut self, log: &Journal) {
        self.notes.note(log);
    }

    fn next_call(&mut self, now: u64, delayed: Option<FileId>) -> Option<Call> {
        let delayed = number_of(delayed);
        for _ask in 0..MOST_ASKS {
            if self.desk.wants_end() {
                return None;
            }
            if self.desk.is_idle() && !self.take_up(now, delayed) {
                return None;
            }
            let call = match self.desk.work() {
                Some(work) if work.is_listing() => return None,
                Some(work) => work.asks(),
                None => continue,
            };
            match call {
                Ok(call) => return Some(call),
                Err(NoMemory::Memory) => self.lack(),
            }
        }
        None
    }

    fn take(&mut self, answer: &Answer) {
        let came = self.desk.take_answer(answer);
        self.came(came);
    }

    fn turn_page(&mut self, now: u64, page: Option<Vec<u8>>) -> Paged {
        let is_listing = match self.desk.work() {
            Some(work) => work.is_listing(),
            None => false,
        };
        let request = if is_listing {
            self.list_on(now, page)
        } else {
            self.probe(now, page)
        };
        self.tell_waiting(now);
        Paged {
            request,
            is_over: is_listing && self.desk.is_idle(),
        }
    }

    fn wants_end(&self) -> bool {
        self.desk.wants_end()
    }

    fn last_call(&mut self, file: FileId) -> Call {
        self.desk.put_aside(file);
        Call::Sync { file }
    }

    fn rest(&mut self) {
        pause(&self.rt);
    }

    fn end(&mut self, is_delaying: bool) -> bool {
        let Some((place, number)) = self.desk.take_end() else {
            return false;
        };
        if is_delaying {
            self.refuse(place, number, STILL_DELAYED);
            return false;
        }
        self.reply(place, number, AnswerKind::Done, b"ok", &[]);
        true
    }
}

impl Hosting {
    /// A host that nobody has asked yet.
    pub(crate) fn new(
        rt: HostRuntime,
        who: Who,
        door: Door,
        notes: Notes,
        ledger: Ledger,
    ) -> Hosting {
        let alloc = rt.alloc();
        Hosting {
            rt,
            alloc,
            who,
            door,
            notes,
            ledger,
            desk: Desk::new(alloc),
            waiting: Waiting::new(alloc, 0),
            made: 0,
            listed: 0,
            asked: 0,
            looked: 0,
        }
    }

    /// Hears who wants it to end, one at a time.
    fn hear_end(&mut self) {
        if self.desk.wants_end() {
            return;
        }
        if let Some((place, number)) = self.door.next_end() {
            self.desk.hold_end(place, number);
        }
    }

    /// Who it is.
    fn who(&self) -> Who {
        self.who
    }

    /// The place of whoever asked what is at work.
    fn at_work(&self) -> usize {
        match self.desk.work() {
            Some(work) => work.place(),
            None => NOBODY,
        }
    }

    // ---- lists, and what waits

    /// Goes on with the list at work: takes the page that came, if one did. The request for the next one, where that is due.
    fn list_on(&mut self, now: u64, page: Option<Vec<u8>>) -> Option<Vec<u8>> {
        if let Some(page) = &page {
            let came = self.take_page(page);
            self.came(came);
        }
        match self.page_due(now) {
            Ok(request) => self.counted(request),
            Err(NoMemory::Memory) => {
                self.lack();
                None
            }
        }
    }

    /// Takes a page for the list at work.
    fn take_page(&mut self, page: &[u8]) -> Came {
        let who = self.who();
        self.desk.take_page(who, page)
    }

    /// The request for the next page of the list at work, where that is due.
    fn page_due(&mut self, now: u64) -> Result<Option<Vec<u8>>, NoMemory> {
        let (who, number) = (self.who(), self.next_number());
        self.desk.asks_page(who, number, now)
    }

    /// The number of the next request for a page.
    fn next_number(&self) -> u32 {
        FIRST_NUMBER | self.listed.wrapping_add(1)
    }

    /// A request that is sent, if there is one.
    fn counted(&mut self, request: Option<Vec<u8>>) -> Option<Vec<u8>> {
        if request.is_some() {
            self.listed = self.listed.wrapping_add(1);
        }
        request
    }

    /// Takes the page that came, which may tell whether the server recovers. The request that asks so, where somebody waits and that is due.
    fn probe(&mut self, now: u64, page: Option<Vec<u8>>) -> Option<Vec<u8>> {
        if let Some(page) = &page {
            let who = self.who();
            self.waiting.take_page(self.alloc, who, page);
        }
        self.waiter(now)?;
        let (who, number) = (self.who(), self.next_number());
        match self.waiting.asks(self.alloc, who, number, now) {
            Ok(request) => self.counted(request),
            Err(NoMemory::Memory) => None,
        }
    }

    /// Who waits, and the number of the ask. Where nobody asked what is at work, the next ask is taken out.
    fn waiter(&mut self, now: u64) -> Option<(usize, u32)> {
        if !self.desk.is_idle() && self.at_work() == NOBODY {
            self.hold(now);
        }
        self.desk.waiter()
    }

    /// Tells whoever waits why, once it has waited for a while.
    fn tell_waiting(&mut self, now: u64) {
        let Some((place, number)) = self.waiter(now) else {
            return;
        };
        if let Some(words) = self.waiting.tells(now) {
            self.door
                .answer(place, number, AnswerKind::Wait, words, &[]);
        }
    }

    // ---- what is done next

    /// Takes up what is to be done next: what was put aside, else tidying up, else an ask, else storing what is delayed, else a look after
    /// bytes that were stored. Whether there was anything.
    fn take_up(&mut self, now: u64, delayed: Option<u32>) -> bool {
        if self.desk.resume() {
            return true;
        }
        if let Some(made) = self.ledger.next_left() {
            self.desk.begin(Work::tidy(self.alloc, made));
            return true;
        }
        self.take_ask(now) || self.take_delayed(now, delayed) || self.take_oldest(now)
    }

    /// Takes up the next ask. Whether there was one.
    fn take_ask(&mut self, now: u64) -> bool {
        self.hold(now);
        match self.desk.take_next() {
            Some((place, ask)) => {
                self.begin(place, ask);
                true
            }
            None => false,
        }
    }

    /// Takes the next ask out, unless one is taken out already.
    fn hold(&mut self, now: u64) {
        if self.desk.has_next() || self.desk.wants_end() {
            return;
        }
        if let Some((place, ask)) = self.door.next_ask() {
            self.asked = now;
            self.waiting = Waiting::new(self.alloc, now);
            if ask.text.as_slice() == b"end".as_slice() {
                self.desk.hold_end(place, ask.number);
            } else {
                self.desk.hold(place, ask);
            }
        }
    }

    /// Begins to store what is delayed, where nobody has asked for a while. Whether there was anything.
    fn take_delayed(&mut self, now: u64, delayed: Option<u32>) -> bool {
        if now.saturating_sub(self.asked) < QUIET {
            return false;
        }
        match delayed {
            Some(number) => {
                self.desk.begin(Work::sync(self.alloc, FileId(number)));
                true
            }
            None => false,
        }
    }

    /// Begins to look whether bytes that it stored are still told under their name, where nobody has asked for a while: another host may have
    /// stored others under the name, and been cut off before it removed these. Whether there was anything.
    fn take_oldest(&mut self, now: u64) -> bool {
        if now.saturating_sub(self.asked) < LOOKS || now.saturating_sub(self.looked) < LOOKS {
            return false;
        }
        self.looked = now;
        let _doubted = self.ledger.doubt_oldest();
        match self.ledger.next_left() {
            Some(made) => {
                self.desk.begin(Work::tidy(self.alloc, made));
                true
            }
            None => false,
        }
    }

    // ---- an ask

    /// Begins the work for an ask.
    fn begin(&mut self, place: usize, ask: Ask) {
        let number = ask.number;
        if let Some(name) = name_stored(&ask.text) {
            return self.begin_store(place, ask, name);
        }
        match Work::new(self.alloc, place, &ask) {
            Some(work) => self.desk.begin(work),
            None => self.refuse(place, number, b"the host knows no such ask"),
        }
    }

    /// Begins to store a file under a name. What is made for it is written down before.
    fn begin_store(&mut self, place: usize, ask: Ask, name: Name) {
        let number = ask.number;
        self.made = self.made.saturating_add(1);
        let Some(own) = own_name(self.alloc, self.who(), self.made) else {
            return self.refuse(place, number, NO_MEMORY);
        };
        let made = Made { own, name };
        if !self.ledger.add(&made) {
            return self.refuse(place, number, b"the host cannot write in its folder");
        }
        match Work::store(self.alloc, place, ask, made) {
            Some(work) => self.desk.begin(work),
            None => self.refuse(place, number, b"these are too many bytes"),
        }
    }

    /// The ask at work is over, since memory was wanting.
    fn lack(&mut self) {
        let came = self.desk.lack();
        self.came(came);
    }

    /// What came of a step.
    fn came(&mut self, came: Came) {
        match came {
            Came::On => {}
            Came::Later => self.waiting.hear(Listed::Later),
            Came::Tidied(made) => {
                let _noted = self.ledger.looked_after(made);
            }
            Came::Over(reply) => {
                let AskReply {
                    place,
                    number,
                    kind,
                    text,
                    bytes,
                    refused,
                    is_removal,
                } = reply;
                if let Some(name) = refused {
                    let _noted = self.ledger.doubt(&name);
                }
                if is_removal {
                    let _noted = self.ledger.doubt_all();
                }
                self.reply(place, number, kind, &text, &bytes);
            }
        }
    }

    /// Refuses an ask.
    fn refuse(&mut self, place: usize, number: u32, why: &[u8]) {
        self.reply(place, number, AnswerKind::Refused, why, &[]);
    }

    /// Answers an ask. Before, whoever asked is told of the delayed writes that were lost since somebody was told.
    fn reply(&mut self, place: usize, number: u32, kind: AnswerKind, text: &[u8], bytes: &[u8]) {
        if !self.door.has(place) {
            return;
        }
        let lost = self.notes.take_lost();
        if !lost.is_empty() {
            self.door
                .answer(place, number, AnswerKind::Note, &lost, &[]);
        }
        self.door.answer(place, number, kind, text, bytes);
    }
}

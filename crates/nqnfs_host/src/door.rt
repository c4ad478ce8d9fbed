//! The sockets of a host: one wait for the server and for those who ask.

use crate::askers::Asker;
use crate::link::HostLink;
use mio::net::UnixListener;
use mio::{Events, Interest, Poll, Token};
use nq_asks::AnswerKind;
use nq_tasks::{Ask, NOBODY};
use std::alloc::Global;
use std::io;
use std::time::Duration;

/// The most askers at once.
const MOST_ASKERS: usize = 64;

/// The most events of one wait.
const MOST_EVENTS: usize = 64;

/// The token of the server's datagrams.
const SERVER: Token = Token(0);

/// The token of those who connect.
const DOOR: Token = Token(1);

/// For how many milliseconds it waits at most. So the clock is read several times in a tick.
const WAIT: u64 = 200;

/// Those who ask a host, each at a place.
#[derive(Drop)]
pub(crate) struct Door {
    alloc: Global,
    poll: Poll,
    events: Events,
    door: UnixListener,
    askers: Vec<Option<Asker>>,
    first: usize,
}

impl Door {
    /// A door through which nobody has come yet.
    ///
    /// # Errors
    ///
    /// That of the machine where the sockets cannot be waited for.
    pub(crate) fn open(
        rt: &HostRuntime,
        link: &mut HostLink,
        door: UnixListener,
    ) -> io::Result<Door> {
        let mut door = door;
        let alloc = rt.alloc();
        let poll = Poll::new(rt)?;
        poll.registry()
            .register(&mut link.socket, SERVER, Interest::READABLE)?;
        poll.registry()
            .register(&mut door, DOOR, Interest::READABLE)?;
        Ok(Door {
            alloc,
            poll,
            events: Events::with_capacity(alloc, MOST_EVENTS)?,
            door,
            askers: Vec::new(alloc),
            first: 0,
        })
    }

    /// Waits until something comes, or for a moment. Where much is to be done it only looks. Whether that went well.
    pub(crate) fn wait(&mut self, is_busy: bool) -> bool {
        let wait = if is_busy { 0 } else { WAIT };
        self.poll
            .poll(&mut self.events, Some(Duration::from_millis(wait)))
            .is_ok()
    }

    /// Lets in those who connect.
    pub(crate) fn let_in(&mut self) {
        for _asker in 0..MOST_ASKERS {
            let Ok((stream, _address)) = self.door.accept() else {
                return;
            };
            let mut asker = Asker::new(self.alloc, stream);
            let place = self.free_place();
            let token = Token(place.saturating_add(2));
            let both = Interest::READABLE | Interest::WRITABLE;
            if place >= MOST_ASKERS
                || self
                    .poll
                    .registry()
                    .register(asker.stream(), token, both)
                    .is_err()
            {
                continue;
            }
            match self.askers.get_mut(place) {
                Some(free) => *free = Some(asker),
                None => {
                    let _kept = self.askers.push(Some(asker));
                }
            }
        }
    }

    /// The first place that nobody has.
    fn free_place(&self) -> usize {
        for (place, asker) in self.askers.iter().enumerate() {
            if asker.is_none() {
                return place;
            }
        }
        self.askers.len()
    }

    /// Takes in what askers sent. Whether anything came.
    pub(crate) fn read(&mut self) -> bool {
        let mut came = false;
        for asker in self.askers.iter_mut() {
            if let Some(asker) = asker {
                came = asker.read() || came;
            }
        }
        came
    }

    /// Sends what is owed to askers, and lets those go who are gone, but for those at these places, whose asks are not answered yet.
    pub(crate) fn write(&mut self, at_work: usize, next: usize, aside: usize) {
        for (place, asker) in self.askers.iter_mut().enumerate() {
            let mut is_over = false;
            if let Some(asker) = asker {
                asker.write();
                is_over = asker.is_over && place != at_work && place != next && place != aside;
            }
            if is_over {
                *asker = None;
            }
        }
    }

    /// Takes an ask out that wants the host to end: its place and its number. Those of others stay.
    pub(crate) fn next_end(&mut self) -> Option<(usize, u32)> {
        for (place, asker) in self.askers.iter_mut().enumerate() {
            if let Some(asker) = asker {
                if asker.says_end() {
                    if let Some(ask) = asker.next_ask() {
                        return Some((place, ask.number));
                    }
                }
            }
        }
        None
    }

    /// Takes the next ask out, from each asker in turn, with its place.
    pub(crate) fn next_ask(&mut self) -> Option<(usize, Ask)> {
        let count = self.askers.len();
        for step in 0..count {
            let place = self.first.saturating_add(step) % count;
            let ask = match self.askers.get_mut(place) {
                Some(Some(asker)) => asker.next_ask(),
                _ => None,
            };
            if let Some(ask) = ask {
                self.first = place.saturating_add(1);
                return Some((place, ask));
            }
        }
        None
    }

    /// Whether an asker is at this place.
    pub(crate) fn has(&self, place: usize) -> bool {
        place != NOBODY && matches!(self.askers.get(place), Some(Some(_)))
    }

    /// Answers an ask of the asker at this place.
    pub(crate) fn answer(
        &mut self,
        place: usize,
        number: u32,
        kind: AnswerKind,
        text: &[u8],
        bytes: &[u8],
    ) {
        if let Some(Some(asker)) = self.askers.get_mut(place) {
            asker.answer(number, kind, text, bytes);
        }
    }
}

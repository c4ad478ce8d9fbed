//! Datagrams among the parties of a scene, and a clock.

ghost use Rattle.std.specs.Prelude.{None};

use nq_base::{Party, Ticks};
use nq_clock::Clock;
use nq_link::{Came, Link, Sent};
use nq_run::NoMemory;
use std::alloc::Global;
use std::cell::RefCell;
use std::rc::Rc;

/// A datagram under way.
#[derive(Drop)]
struct Letter {
    from: Party,
    to: Party,
    bytes: Vec<u8>,
}

/// The datagrams that were sent and not received yet, in the order in which they were sent.
#[derive(Drop)]
pub(crate) struct Post {
    alloc: Global,
    waiting: Vec<Letter>,
    /// Whether what is sent over a link arrives; else it is lost.
    carries: bool,
    /// How many datagrams were sent over links.
    sent: u32,
}

impl Post {
    /// No datagram is under way.
    pub(crate) fn new(alloc: Global, carries: bool) -> Post {
        Post {
            alloc,
            waiting: Vec::new(alloc),
            carries,
            sent: 0,
        }
    }

    /// Lets a datagram wait for its receiver.
    pub(crate) fn bring(&mut self, from: Party, to: Party, bytes: &[u8]) -> Result<(), NoMemory> {
        let bytes = bytes.to_vec(self.alloc)?;
        self.waiting.push(Letter { from, to, bytes })?;
        Ok(())
    }

    /// How many datagrams were sent over links.
    pub(crate) fn sent(&self) -> u32 {
        self.sent
    }

    /// Takes in a datagram that is sent over a link; answers whether there was memory.
    fn put_letter(&mut self, from: Party, to: Party, bytes: &[u8]) -> bool {
        self.sent = self.sent.saturating_add(1);
        !self.carries || self.bring(from, to, bytes).is_ok()
    }

    /// Takes out the datagram that waits longest for a party.
    fn take_letter(&mut self, to: Party) -> Option<Letter> {
        let place = self.waiting.iter().position(|letter| letter.to == to)?;
        Some(self.waiting.remove(place))
    }
}

/// A party's link over the post. It tells nothing of its datagrams, and its first call, or its first sending, fails where that is wanted.
#[derive(Drop)]
pub(crate) struct PostLink {
    post: Rc<RefCell<Post>>,
    me: Party,
    fails: bool,
    refuses: bool,
    faults: u64,
    receives: u64,
}

impl PostLink {
    /// The link of a party.
    pub(crate) fn new(post: Rc<RefCell<Post>>, me: Party, fails: bool) -> PostLink {
        PostLink {
            post,
            me,
            fails,
            refuses: false,
            faults: 0,
            receives: 0,
        }
    }

    /// The link, whose first sending fails.
    pub(crate) fn refusing(self) -> PostLink {
        let mut link = self;
        link.refuses = true;
        link
    }
}

/// Sends a datagram over the post; answers whether it was taken.
fn was_put(post: &RefCell<Post>, from: Party, to: Party, bytes: &[u8]) -> bool {
    match post.try_borrow_mut() {
        Ok(mut post) => post.put_letter(from, to, bytes),
        Err(_) => false,
    }
}

/// The datagram that waits longest for a party; None where none does.
fn first_for(post: &RefCell<Post>, to: Party) -> Option<Letter> {
    match post.try_borrow_mut() {
        Ok(mut post) => post.take_letter(to),
        Err(_) => None,
    }
}

impl Link for PostLink {
    ghost sent = { λ _. None };

    ghost waiting = { λ _. None };

    ghost faults = { λ link. link.faults };

    ghost receives = { λ link. link.receives };

    fn send(&mut self, to: Party, bytes: &[u8]) -> Sent {
        let fails = self.fails || self.refuses;
        self.fails = false;
        self.refuses = false;
        if fails || !was_put(&self.post, self.me, to, bytes) {
            self.faults = self.faults.saturating_add(1);
            return Sent::Failed;
        }
        Sent::All
    }

    fn receive(&mut self, into: &mut [u8]) -> Came {
        self.receives = self.receives.saturating_add(1);
        let fails = self.fails;
        self.fails = false;
        if fails {
            self.faults = self.faults.saturating_add(1);
            return Came::Failed;
        }
        match first_for(&self.post, self.me) {
            Some(letter) => {
                let length = letter.bytes.len().min(into.len());
                into[..length].copy_from_slice(&letter.bytes[..length]);
                Came::Datagram {
                    length,
                    sender: letter.from,
                }
            }
            None => Came::Nothing,
        }
    }
}

/// A clock that shows 0 first, and one more at each reading, up to its last.
#[derive(Drop)]
pub(crate) struct StoryClock {
    next: u32,
    last: u32,
    reads: u64,
}

impl StoryClock {
    /// A clock that goes on to this reading.
    pub(crate) fn to(last: u32) -> StoryClock {
        StoryClock {
            next: 0,
            last,
            reads: 0,
        }
    }
}

impl Clock for StoryClock {
    ghost floor = { λ clock. clock.next };

    ghost readings = { λ _. None };

    ghost reads = { λ clock. clock.reads };

    fn now(&mut self) -> Ticks {
        self.reads = self.reads.saturating_add(1);
        let reading = self.next;
        if reading < self.last {
            self.next = reading + 1;
        }
        Ticks(u64::from(reading))
    }
}

//! A link that counts.

ghost use Rattle.std.specs.Prelude.{◌≡◌};

use crate::traffic::classes::{class_heard, class_said};
use crate::traffic::counts::Counts;
use nq_link::{Came, Link, Party, Sent};
use std::marker::Model;

/// A link that counts what comes and goes over another one. It does nothing else: contracts see the link within it.
#[derive(Drop)]
pub struct CountedLink<L> {
    link: L,
    counts: Counts,
}

impl<L> Model for CountedLink<L> {
    ghost Value = { L };

    ghost view = { λ l. l.link };
}

impl<L> CountedLink<L> {
    /// A link that counts over this one, and has counted nothing.
    pub fn new(link: L) -> CountedLink<L>
        ensures { result ≡ link }
    {
        CountedLink {
            link,
            counts: Counts::none(),
        }
    }

    /// What was counted.
    pub fn counts(&self) -> &Counts {
        &self.counts
    }
}

impl<L: Link> Link for CountedLink<L> {
    ghost sent = { λ link. L.sent link };

    ghost waiting = { λ link. L.waiting link };

    ghost faults = { λ link. L.faults link };

    ghost receives = { λ link. L.receives link };

    fn send(&mut self, to: Party, bytes: &[u8]) -> Sent {
        let sent = self.link.send(to, bytes);
        match sent {
            Sent::All => self.counts.say(class_said(bytes)),
            Sent::Failed => self.counts.lose(),
        }
        sent
    }

    fn receive(&mut self, into: &mut [u8]) -> Came {
        let came = self.link.receive(into);
        if let Came::Datagram { length, sender: _ } = came {
            self.counts.hear(class_heard(&into[..length]));
        }
        came
    }
}

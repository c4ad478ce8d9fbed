//! The packets of a run, as they are sent.

use crate::mail::Mail;
use crate::memory::Memory;
use nq_base::{Event, NoMemory};
use nq_link::net::Packets;
use nq_record::Sent;
use std::alloc::Global;

/// The packets of a run in words, in the order in which they were sent.
#[derive(Drop)]
pub struct Post {
    memory: Memory,
    mail: Mail,
}

impl Post {
    /// No packet was sent.
    pub fn new(alloc: Global) -> Post {
        Post {
            memory: Memory::new(alloc),
            mail: Mail::new(alloc),
        }
    }

    /// Notes what is sent in an event, where these are all packets behind it.
    ///
    /// # Errors
    ///
    /// Want of memory, now or before.
    pub fn see(&mut self, packets: &Packets, event: &Event) -> Result<(), NoMemory> {
        let party = self.mail.actor(event);
        self.mail.see(&mut self.memory, packets, event, &party, 0);
        if self.memory.is_short {
            Err(NoMemory::Memory)
        } else {
            Ok(())
        }
    }

    /// The packets. Of each, who sends it, for whom it is, and what it says.
    pub fn sent(&self) -> &[Sent] {
        &self.mail.packets
    }
}

//! An image that is built, what comes to a disk of it, and what a stop may leave.

use crate::kept;
use crate::noting_disk::{Moment, NotingDisk, Write};
use crate::page::{bytes_of, copy_of, cut, field, number_of, say, write_over};
use crate::serving::{Event, event_of, in_file, in_memory};
use std::alloc::Global;

/// The host of which all datagrams are where a server is stopped.
const SENDER: &str = "5";

/// The most writes of which each subset is tried.
const MOST: usize = 5;

/// How many images with torn writes are opened of each stop, where few writes may be torn, and where many.
const FEW: u32 = 16;

const MANY: u32 = 4;

/// The number of the set that has all writes.
const ALL: usize = usize::MAX;

/// The image that is being built, the one that was kept last, and what comes to a disk of one.
#[derive(Drop)]
pub(crate) struct Bench {
    image: Vec<u8>,
    kept: Vec<u8>,
    /// The image to which the events come.
    first: Vec<u8>,
    events: Vec<Event>,
    /// How many values of a single byte are tried of a disk in memory; 0 where the disk is a file.
    values: u32,
    /// How many calls the events before the last one made.
    calls: usize,
}

/// What was kept before an event, what is kept behind it, and how often the one was found, how often the other, and how often
/// anything else.
#[derive(Drop)]
struct Tally {
    before: Vec<u8>,
    after: Vec<u8>,
    found: [u64; 3],
}

impl Tally {
    /// Counts for what an image stands.
    fn count(&mut self, kept: &[u8]) {
        let place = if kept == self.before.as_slice() {
            0
        } else if kept == self.after.as_slice() {
            1
        } else {
            2
        };
        self.found[place] = self.found[place].wrapping_add(1);
    }
}

impl Bench {
    /// Nothing is built, and nothing kept.
    pub(crate) fn new(alloc: Global) -> Bench {
        Bench {
            image: Vec::new(alloc),
            kept: Vec::new(alloc),
            first: Vec::new(alloc),
            events: Vec::new(alloc),
            values: 0,
            calls: 0,
        }
    }

    /// Carries out a line that builds an image.
    pub(crate) fn build(&mut self, alloc: Global, verb: &str, rest: &str) {
        match verb {
            "base" => self.image.clear(),
            "image" => self.image = copy_of(alloc, &self.kept),
            "size" => {
                self.image.resize(number_of(rest) as usize, 0).ok();
            }
            "put" => {
                let (place, words) = cut(rest, ' ');
                let place = number_of(place) as usize;
                write_over(&mut self.image, place, &bytes_of(alloc, words));
            }
            _ => self.kept = copy_of(alloc, &self.image),
        }
    }

    /// Opens a disk of the image as a store, and tells for what it stands, or where the first wrong field is.
    pub(crate) fn open(&mut self, alloc: Global, page: &mut Vec<u8>) {
        if let Some(disk) = in_memory(alloc, &self.image, &[], page) {
            say(page, "ok");
            kept::tell(alloc, disk.bytes(), page);
            self.image = copy_of(alloc, disk.bytes());
        }
    }

    /// Begins with a server that boots over a disk of the image that was kept.
    pub(crate) fn serve(&mut self, alloc: Global) {
        self.first = copy_of(alloc, &self.kept);
        self.events.clear();
        self.events.push(Event::Boot).ok();
    }

    /// Has an event come to the server, and tells the answer.
    pub(crate) fn answer(&mut self, alloc: Global, event: Event, page: &mut Vec<u8>) {
        self.events.push(event).ok();
        in_memory(alloc, &self.first, &self.events, page);
    }

    /// Stops what comes: the opening or the boot of a disk of the image, or what comes to it then.
    pub(crate) fn stop(&mut self, rt: &HostRuntime, rest: &str, page: &mut Vec<u8>) {
        let alloc = rt.alloc();
        let (name, words) = cut(rest, ' ');
        let event = match cut(name, '-').0 {
            "migration" | "boot" => Event::Boot,
            "tick" => event_of(alloc, "tick", words),
            _ => event_of(alloc, SENDER, words),
        };
        if let Event::Boot = event {
            self.first = copy_of(alloc, &self.image);
            self.events.clear();
            self.calls = 0;
            self.values = number_of(words);
        }
        if name != "migration" {
            self.events.push(event).ok();
        }
        let [old, new, other] = self.stop_last(rt);
        say(page, name);
        field(page, ":", old);
        field(page, " before,", new);
        field(page, " after,", other);
        say(page, " other");
    }

    /// Stops the last event at each of its calls, and puts what the disk has behind it in place of the image.
    fn stop_last(&mut self, rt: &HostRuntime) -> [u64; 3] {
        let alloc = rt.alloc();
        let before = kept_in(alloc, &self.image);
        let Some(noted) = in_memory(alloc, &self.first, &self.events, &mut Vec::new(alloc)) else {
            return [0; 3];
        };
        self.image = if self.values == 0 {
            in_file(rt, &self.first, &self.events)
        } else {
            copy_of(alloc, noted.bytes())
        };
        let mut tally = Tally {
            before,
            after: kept_in(alloc, &self.image),
            found: [0; 3],
        };
        for call in self.calls..noted.moments.len() {
            self.stop_at(rt, &noted, call, &mut tally);
        }
        self.calls = noted.moments.len();
        tally.found
    }

    /// Opens images of what a stop at a call may leave.
    fn stop_at(&self, rt: &HostRuntime, noted: &NotingDisk, call: usize, tally: &mut Tally) {
        let Some(moment) = noted.moments.get(call) else {
            return;
        };
        let mut image = copy_of(rt.alloc(), &self.first);
        if self.values == 0 {
            let came = noted.writes.get(..moment.before).unwrap_or(&[]);
            write_whole(&mut image, came, ALL);
            tally.count(&kept_of(rt.alloc(), &in_file(rt, &image, &[])));
        } else {
            let settled = noted.writes.get(..moment.settled).unwrap_or(&[]);
            write_whole(&mut image, settled, ALL);
            let open = noted.writes.get(moment.settled..moment.with_it);
            self.stop_within(rt.alloc(), &image, open.unwrap_or(&[]), call, tally);
        }
    }

    /// Opens images to which sets of these writes came, whole or torn.
    fn stop_within(
        &self,
        alloc: Global,
        image: &[u8],
        open: &[Write],
        call: usize,
        tally: &mut Tally,
    ) {
        let (sets, torn) = match open {
            [] => (1, 0),
            [only] if only.bytes.len() == 1 => (2, self.values),
            few if few.len() <= MOST => (1_usize << few.len(), FEW),
            _ => (2, MANY),
        };
        for set in 0..sets {
            // The last set has all writes.
            count_whole(
                alloc,
                image,
                open,
                if set + 1 == sets { ALL } else { set },
                tally,
            );
        }
        let mut random = (call & 0xffff_ffff) as u32;
        for number in 0..torn {
            count_torn(
                alloc,
                image,
                open,
                &mut random,
                (number & 0xff) as u8,
                tally,
            );
        }
    }
}

/// Counts for what an image stands to which these of the writes came whole.
fn count_whole(alloc: Global, image: &[u8], open: &[Write], came: usize, tally: &mut Tally) {
    let mut image = copy_of(alloc, image);
    write_whole(&mut image, open, came);
    tally.count(&kept_in(alloc, &image));
}

/// Counts for what an image stands to which the writes came torn.
fn count_torn(
    alloc: Global,
    image: &[u8],
    open: &[Write],
    random: &mut u32,
    byte: u8,
    tally: &mut Tally,
) {
    let mut image = copy_of(alloc, image);
    write_torn(&mut image, open, random, byte);
    tally.count(&kept_in(alloc, &image));
}

/// For what an image stands.
fn kept_of(alloc: Global, image: &[u8]) -> Vec<u8> {
    let mut told = Vec::new(alloc);
    kept::tell(alloc, image, &mut told);
    told
}

/// For what an image stands, once a disk of it is opened.
fn kept_in(alloc: Global, image: &[u8]) -> Vec<u8> {
    match in_memory(alloc, image, &[], &mut Vec::new(alloc)) {
        Some(disk) => kept_of(alloc, disk.bytes()),
        None => Vec::new(alloc),
    }
}

/// Writes those of these writes whose bit is set, or all, and of the others nothing.
fn write_whole(image: &mut Vec<u8>, writes: &[Write], came: usize) {
    let mut bits = came;
    for write in writes {
        if bits % 2 == 1 {
            write_over(image, write.place, &write.bytes);
        }
        if bits != ALL {
            bits /= 2;
        }
    }
}

/// Writes of each of these writes a front, and behind it a byte that nobody wrote. A write of one byte leaves any.
fn write_torn(image: &mut Vec<u8>, writes: &[Write], random: &mut u32, byte: u8) {
    for write in writes {
        *random = random.wrapping_mul(1_664_525).wrapping_add(1_013_904_223);
        let count = write.bytes.len().max(1);
        let front = (*random >> 16) as usize % count;
        write_over(image, write.place, write.bytes.get(..front).unwrap_or(&[]));
        write_over(image, write.place.saturating_add(front), &[byte]);
    }
}

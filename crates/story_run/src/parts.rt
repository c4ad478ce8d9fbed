//! The parts of a scene: words, a disk, and the datagrams that wait.

ghost use Rattle.std.specs.Prelude.{◌≡◌, IfOk, length, vec_len};

use crate::post::{Post, PostLink};
use nq_base::{Host, Party};
use nq_disk::MemDisk;
use nq_run::{CommandWords, NoMemory, ROOM};
use std::alloc::Global;
use std::cell::RefCell;
use std::rc::Rc;

/// Words that stand behind one another, with a blank between two.
pub(crate) fn words_of(alloc: Global, said: &str) -> CommandWords {
    let mut words = CommandWords::new(alloc).unwrap();
    for word in said.split(' ') {
        words.push(word).ok();
    }
    words
}

/// The numbers of the calls that fail: the first where the scene ends with a word, else none.
pub(crate) fn failing(alloc: Global, scene: &str, word: &str) -> Vec<u32> {
    let mut numbers = Vec::new(alloc);
    if scene.ends_with(word) {
        numbers.push(0).ok();
    }
    numbers
}

/// The disk of a scene.
pub(crate) fn disk_of(alloc: Global, scene: &str, left: Vec<u8>) -> Result<MemDisk, NoMemory> {
    let mut bytes = left;
    if !scene.starts_with("again") {
        bytes.clear();
    }
    bytes.truncate(68_202_496);
    MemDisk::new(alloc, bytes, ROOM, failing(alloc, scene, "unkept"), None)
}

/// The datagrams that wait in a scene.
pub(crate) fn post_of(alloc: Global, scene: &str) -> Result<Post, NoMemory> {
    let mut post = Post::new(alloc, scene.starts_with("replayed"));
    if scene.ends_with("asked") {
        for host in 0..20 {
            let asks = [1, 0, 2, 0x2000_4e51, 1, 1, 0, 0, 0, 0, host, 1];
            bring(&mut post, Party::Client(Host(host)), Party::Server, &asks)?;
        }
    }
    if scene.starts_with("attached") || scene.starts_with("answered") {
        let attached = [1, 1, 0, 0, 0, 0, 1, 0];
        bring(&mut post, Party::Server, Party::Client(Host(0)), &attached)?;
    }
    if scene.starts_with("answered") {
        for number in 2..21 {
            let none = [number, 1, 0, 0, 0, 0, 1, 2];
            bring(&mut post, Party::Server, Party::Client(Host(0)), &none)?;
        }
    }
    Ok(post)
}

/// Lets a datagram of these words wait.
fn bring(post: &mut Post, from: Party, to: Party, words: &[u32]) -> Result<(), NoMemory> {
    let mut bytes = [0; 64];
    let mut end: usize = 0;
    for word in words {
        if let Some(place) = bytes.get_mut(end..end.saturating_add(4)) {
            place.copy_from_slice(&word.to_be_bytes());
            end = end.saturating_add(4);
        }
    }
    match bytes.get(..end) {
        Some(bytes) => post.bring(from, to, bytes),
        None => Ok(()),
    }
}

/// The links of these parties.
pub(crate) fn links_of(
    alloc: Global,
    post: &Rc<RefCell<Post>>,
    parties: &[Party],
    fails: bool,
) -> Result<Vec<PostLink>, NoMemory>
    ensures { IfOk result (λ links. vec_len links ≡ length parties.now) }
{
    let mut links = Vec::new(alloc);
    for party in parties {
        links.push(PostLink::new(post.clone()?, *party, fails))?;
    }
    Ok(links)
}

//! What the page sends as JSON.

use nq_base::Host;
use nq_bend::{Bend, Then};
use serde_json::Value;
use std::alloc::{AllocError, Global};

/// The member of an object that is a text.
pub(crate) fn text_in<'a>(value: &'a Value, name: &str) -> Option<&'a str> {
    value.get(name)?.as_str()
}

/// The member of an object that is a number.
pub(crate) fn number_in(value: &Value, name: &str) -> Option<u64> {
    value.get(name)?.as_u64()
}

/// What is to happen behind the last event: `go on` where nothing is said.
pub(crate) fn then_in(value: &Value) -> Option<Then> {
    match value.get("then") {
        None => Some(Then::GoOn),
        Some(said) => match said.as_str() {
            Some("go on") => Some(Then::GoOn),
            Some("stop") => Some(Then::Stop),
            _ => None,
        },
    }
}

/// Changes, or the place of the first that is none.
#[derive(Drop)]
pub(crate) enum Bends {
    All(Vec<Bend>),
    Bad(usize),
}

/// The changes that an object lists: none where it has no list.
pub(crate) fn bends_in(alloc: Global, value: &Value) -> Result<Bends, AllocError> {
    let mut bends = Vec::new(alloc);
    let listed = match value.get("bends") {
        None => return Ok(Bends::All(bends)),
        Some(listed) => listed,
    };
    let Some(items) = listed.as_array() else {
        return Ok(Bends::Bad(0));
    };
    for (place, item) in items.iter().enumerate() {
        match bend_of(alloc, item)? {
            Some(bend) => bends.push(bend)?,
            None => return Ok(Bends::Bad(place)),
        }
    }
    Ok(Bends::All(bends))
}

/// The change that an object tells.
fn bend_of(alloc: Global, item: &Value) -> Result<Option<Bend>, AllocError> {
    match text_in(item, "kind") {
        Some("event") => put_of(alloc, item),
        Some(kind) => Ok(plain_of(kind, item)),
        None => Ok(None),
    }
}

/// The event that an object puts in.
fn put_of(alloc: Global, item: &Value) -> Result<Option<Bend>, AllocError> {
    match (number_in(item, "at"), text_in(item, "line")) {
        (Some(at), Some(line)) => {
            let line = line.as_bytes().to_vec(alloc)?;
            let at = at as usize;
            Ok(Some(Bend::Put { at, line }))
        }
        _ => Ok(None),
    }
}

/// The change of this kind that an object tells.
fn plain_of(kind: &str, item: &Value) -> Option<Bend> {
    match kind {
        "lose" => Some(Bend::Lose(number_in(item, "packet")?)),
        "twice" => Some(Bend::Twice(number_in(item, "packet")?)),
        "later" => Some(Bend::Later {
            packet: number_in(item, "packet")?,
            event: number_in(item, "event")? as usize,
        }),
        "cut" => Some(Bend::Cut {
            host: host_in(item)?,
            at: number_in(item, "at")? as usize,
        }),
        "join" => Some(Bend::Join {
            host: host_in(item)?,
            at: number_in(item, "at")? as usize,
        }),
        _ => None,
    }
}

/// The host of a change.
fn host_in(item: &Value) -> Option<Host> {
    let host = number_in(item, "host")?;
    if host < 64 {
        Some(Host(host as u32))
    } else {
        None
    }
}

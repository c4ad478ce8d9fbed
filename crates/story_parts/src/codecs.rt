//! What is read and written again: items of XDR (RFC 1014), messages of RPC (RFC 1057 section 8), arguments and results.

use crate::page::{bytes_of, cut, digits, hex_of, say};
use nq_base::{NoMemory, Spare};
use nq_wire::{WireFault, decode_reply, decode_request, encode_reply, encode_request};
use nq_xdr::rpc::{RpcFault, decode, encode};
use nq_xdr::{Reader, Writer};
use std::alloc::Global;

/// What a line is read as, and whether it is written so again, or why it is nothing that can be read.
pub(crate) fn tell(alloc: Global, verb: &str, rest: &str, page: &mut Vec<u8>) {
    let (procedure, words) = cut(rest, ' ');
    let procedure = hex_of(procedure);
    match verb {
        "file" => file(alloc, &bytes_of(alloc, rest), page),
        "message" => say(page, message(alloc, &bytes_of(alloc, rest))),
        "request" => say(page, request(alloc, procedure, &bytes_of(alloc, words))),
        _ => say(page, reply(alloc, procedure, &bytes_of(alloc, words))),
    }
}

/// A word for whether what was written again is what was read.
fn again(written: Result<Vec<u8>, NoMemory>, read: &[u8]) -> &'static str {
    match written {
        Ok(written) if written.as_slice() == read => "again",
        _ => "written otherwise",
    }
}

/// A file as RFC 1014 section 6 has it: its name, its kind, its interpreter, its owner and its data.
fn file(alloc: Global, bytes: &[u8], page: &mut Vec<u8>) {
    let mut reader = Reader::new(bytes);
    let mut writer = Writer::new(alloc).unwrap();
    text(&mut reader, &mut writer, page);
    kind(&mut reader, &mut writer, page);
    for _ in 0..3 {
        text(&mut reader, &mut writer, page);
    }
    if reader.end().is_ok() {
        say(page, again(Ok(writer.into_bytes()), bytes));
    }
}

/// Opaque data of up to 255 bytes, written again.
fn text(reader: &mut Reader<'_>, writer: &mut Writer, page: &mut Vec<u8>) {
    if let Ok(text) = reader.opaque(255)
        && text.len() < 256
    {
        writer.opaque(text).ok();
        page.extend_from_slice(text).ok();
        say(page, " ");
    }
}

/// A number, written again.
fn kind(reader: &mut Reader<'_>, writer: &mut Writer, page: &mut Vec<u8>) {
    if let Ok(kind) = reader.u32() {
        writer.u32(kind).ok();
        digits(page, u64::from(kind), 10);
        say(page, " ");
    }
}

/// A message, written again.
fn message(alloc: Global, bytes: &[u8]) -> &'static str {
    match decode(alloc, bytes) {
        Ok(message) => again(encode(alloc, &message), bytes),
        Err(RpcFault::Short) => "Short",
        Err(RpcFault::BadKind) => "BadKind",
        Err(RpcFault::BadAuth) => "BadAuth",
        Err(RpcFault::Xdr) => "Xdr",
        Err(RpcFault::Memory) => "Memory",
    }
}

/// The arguments of a procedure, written again.
fn request(alloc: Global, procedure: u32, bytes: &[u8]) -> &'static str {
    let mut room = Spare::none();
    let Ok(()) = room.reserve(alloc) else {
        return "Memory";
    };
    match decode_request(procedure, bytes, &mut room) {
        Ok(request) => again(encode_request(alloc, &request), bytes),
        Err(fault) => name_of(fault),
    }
}

/// The results of a procedure, written again.
fn reply(alloc: Global, procedure: u32, bytes: &[u8]) -> &'static str {
    let mut room = Spare::none();
    let Ok(()) = room.reserve(alloc) else {
        return "Memory";
    };
    match decode_reply(procedure, bytes, &mut room) {
        Ok(reply) => again(encode_reply(alloc, &reply), bytes),
        Err(fault) => name_of(fault),
    }
}

/// The name of a fault.
fn name_of(fault: WireFault) -> &'static str {
    match fault {
        WireFault::NoSuchProc => "NoSuchProc",
        WireFault::Garbage => "Garbage",
        WireFault::Memory => "Memory",
    }
}

//! Entries of the journal in words.

ghost use Rattle.std.specs.Prelude.{◌≡◌, IfOk};
ghost use Rattle.nq_record.specs.Words.{sign_of};

use crate::NoMemory;
use crate::chart::{Part, Sign};
use crate::making::Maker;
use crate::record::Noted;
use crate::text::letters;
use nq_base::{Entry, Mode, Said, Spans, Told};
use std::alloc::Global;

/// An entry in words.
pub fn entry_words(alloc: Global, entry: &Entry) -> Result<Noted, NoMemory>
    ensures { IfOk result (λ noted. noted.sign ≡ sign_of entry.now) }
{
    let mut maker = Maker::new(alloc);
    let words = words_of(&mut maker, entry);
    if maker.is_short {
        return Err(NoMemory::Memory);
    }
    Ok(Noted {
        sign: sign_of(entry),
        words,
    })
}

/// What an entry says.
fn words_of(maker: &mut Maker, entry: &Entry) -> String {
    match entry {
        Entry::C { told, .. } => call_words(maker, &told.told()),
        Entry::A { said, .. } => answer_words(maker, said),
        Entry::W { .. } | Entry::R { .. } => block_words(maker, entry),
        Entry::S { .. } => maker.filled("stores #:#, writes #-#", &writes_of(entry)),
        Entry::L { .. } => maker.filled("lost #:#, writes #-#", &writes_of(entry)),
        Entry::G {
            who,
            file,
            mode,
            term,
            ..
        } => maker.filled(
            grant_form(*mode),
            &[who.host.0 as u64, file.0 as u64, *term as u64],
        ),
        Entry::F { who, file, .. } => maker.filled(
            "fences host # on #",
            &[who.host.0 as u64, file.0 as u64],
        ),
        Entry::Z { file, from, to, .. } => maker.filled(
            "file # from # to # blocks",
            &[file.0 as u64, *from as u64, *to as u64],
        ),
        Entry::B { who } => maker.filled("starts again, incarnation #", &[who.inc.0 as u64]),
        Entry::X { boot, .. } => maker.filled("boots again, boot #", &[*boot as u64]),
        Entry::O { boot, .. } => maker.filled("recovery of boot # ends", &[*boot as u64]),
    }
}

/// Of what an entry tells.
fn sign_of(entry: &Entry) -> Sign
    ensures { result ≡ sign_of entry.now }
{
    match entry {
        Entry::C { .. } | Entry::A { .. } => Sign::Call,
        Entry::W { .. } | Entry::S { .. } => Sign::Write,
        Entry::L { .. } | Entry::F { .. } => Sign::Loss,
        Entry::B { .. } | Entry::X { .. } | Entry::O { .. } => Sign::Start,
        Entry::R { .. } | Entry::G { .. } | Entry::Z { .. } => Sign::Plain,
    }
}

/// The words of a write or a read.
fn block_words(maker: &mut Maker, entry: &Entry) -> String {
    match entry {
        Entry::W {
            file,
            block,
            number,
            value,
            through,
            ..
        } => {
            let form = if *through {
                "writes #:# = #, write #"
            } else {
                "delays #:# = #, write #"
            };
            let numbers = [file.0 as u64, block.0 as u64, *value as u64, number.0];
            maker.filled(form, &numbers)
        }
        Entry::R {
            file,
            block,
            value,
            served,
            ..
        } => {
            let form = if served.is_some() {
                "serves #:# = #"
            } else {
                "has #:# = #"
            };
            maker.filled(form, &[file.0 as u64, block.0 as u64, *value as u64])
        }
        _ => maker.text(&[]),
    }
}

/// Of which writes a store or a loss tells.
fn writes_of(entry: &Entry) -> [u64; 4] {
    match entry {
        Entry::S {
            file,
            block,
            first,
            last,
            ..
        }
        | Entry::L {
            file,
            block,
            first,
            last,
            ..
        } => [file.0 as u64, block.0 as u64, first.0, last.0],
        _ => [0; 4],
    }
}

/// The form of a grant.
fn grant_form(mode: Mode) -> &'static str {
    match mode {
        Mode::NonCaching => "grants host # noncaching on #, # ticks",
        Mode::Reading => "grants host # reading on #, # ticks",
        Mode::Writing => "grants host # writing on #, # ticks",
    }
}

/// The words of a call.
fn call_words(maker: &mut Maker, told: &Told) -> String {
    match told {
        Told::Create { name, .. } => {
            maker.text(&[Part::Text("call create "), Part::Text(letters(name))])
        }
        Told::Lookup { name } => {
            maker.text(&[Part::Text("call lookup "), Part::Text(letters(name))])
        }
        Told::Attr { file } => maker.filled("call attr #", &[file.0 as u64]),
        Told::Read { file, block } => {
            maker.filled("call read # #", &[file.0 as u64, block.0 as u64])
        }
        Told::Fetch { file, block } => {
            maker.filled("call fetch # #", &[file.0 as u64, block.0 as u64])
        }
        Told::Write { file, block, value } => maker.filled(
            "call write # # #",
            &[file.0 as u64, block.0 as u64, *value as u64],
        ),
        Told::Put { file, block, value } => maker.filled(
            "call put # # #",
            &[file.0 as u64, block.0 as u64, *value as u64],
        ),
        Told::Sync { file } => maker.filled("call sync #", &[file.0 as u64]),
        Told::Resize { file, blocks } => {
            maker.filled("call resize # #", &[file.0 as u64, *blocks as u64])
        }
        Told::Remove { file } => maker.filled("call remove #", &[file.0 as u64]),
    }
}

/// The words of an answer.
fn answer_words(maker: &mut Maker, said: &Said) -> String {
    let word = match said {
        Said::OkValue(value) => return maker.filled("answer ok #", &[*value as u64]),
        Said::OkBy { value, packet } => {
            return maker.filled("answer ok # by #", &[*value as u64, *packet]);
        }
        Said::Lost(spans) => return lost_words(maker, spans),
        Said::Ok => "answer ok",
        Said::Busy => "answer busy",
        Said::Stale => "answer stale",
        Said::NoEntry => "answer noentry",
        Said::Exists => "answer exists",
        Said::NoSpace => "answer nospace",
        Said::Range => "answer range",
        Said::DirtyFull => "answer dirtyfull",
    };
    maker.text(&[Part::Text(word)])
}

/// The words of an answer that names losses: the first of them, and how many more there are.
fn lost_words(maker: &mut Maker, spans: &Spans) -> String {
    let Some(span) = spans.get(0) else {
        return maker.text(&[Part::Text("answer lost")]);
    };
    let more = spans.len().saturating_sub(1);
    let form = if more > 0 {
        "answer lost #:#-# and # more"
    } else {
        "answer lost #:#-#"
    };
    let numbers = [span.block.0 as u64, span.first.0, span.last.0, more as u64];
    maker.filled(form, &numbers)
}

//! What a fresh request comes to, by what is kept. Nothing here reads or changes a keeper.

ghost use Rattle.std.specs.Prelude.{◌≡◌, ◌<◌, nat_lt};
ghost use Rattle.nq_model.specs.protocol.Change.{raised_row};
ghost use Rattle.nq_model.specs.protocol.Decided.{decided_before, change_with, no_effect, creation, block_write, length_change, removal, row_with};
ghost use Rattle.nq_model.specs.protocol.Decided.{effect_of_create, effect_of_push, effect_of_write_in, effect_of_write, effect_of_resize, effect_of_remove};
ghost use Rattle.nq_keeper.specs.RequestsCapped.{capped};

use crate::raised;
use nq_base::{
    Block, BlockChange, BlockNo, Change, Decided, Effect, FileId, FileRow, Heads, HostChange,
    HostRow, Name, PushBase, Rev, Seq, Space, Verdict, Who,
};

/// The most files.
const MOST_FILES: u32 = 256;

/// The most blocks of all files together.
const MOST_BLOCKS: u32 = 16_384;

/// The most blocks of a file.
const MOST_BLOCKS_OF_FILE: u32 = 1024;

/// The most ids that are ever given.
const MOST_IDS: u32 = 0x8000_0000;

/// A decision that changes nothing.
#[tactic(auto, unfolding(nq_model::specs::protocol::Decided::no_effect, crate::specs::RequestsCapped::capped))]
pub(crate) fn none(verdict: Verdict) -> Effect
    ensures { result ≡ capped (no_effect verdict) }
{
    Effect {
        verdict,
        value: 0,
        change: Change {
            file: None,
            block: None,
            host: None,
            heads: None,
            removed: None,
        },
    }
}

/// A file is made.
#[tactic(auto, unfolding(nq_model::specs::protocol::Decided::creation, crate::specs::RequestsCapped::capped, crate::specs::Capped::capped_row))]
fn created(heads: &Heads, name: &Name, blocks: u32) -> Effect
    requires { heads.now.next < 2147483648 }
    ensures { result ≡ capped (creation heads.now name.now blocks) }
{
    let id = heads.next;
    Effect {
        verdict: Verdict::Done,
        value: u64::from(id),
        change: Change {
            file: Some(FileRow {
                id: FileId(id),
                name: *name,
                blocks,
                rev: Rev(0),
            }),
            block: None,
            host: None,
            heads: Some(Heads {
                boot: heads.boot,
                opened: heads.opened,
                longest: heads.longest,
                next: id + 1,
            }),
            removed: None,
        },
    }
}

/// A block is written.
#[tactic(auto, unfolding(nq_model::specs::protocol::Decided::block_write, nq_model::specs::protocol::Change::raised_row, crate::specs::RequestsCapped::capped, crate::specs::Capped::capped_row))]
fn written(row: &FileRow, block: BlockNo, body: Block) -> Effect
    ensures { result ≡ capped (block_write row.now block body) }
{
    let value = row.rev.0.saturating_add(1);
    let change = BlockChange {
        file: row.id,
        block,
        body,
    };
    Effect {
        verdict: Verdict::Done,
        value,
        change: Change {
            file: Some(raised(row, row.blocks)),
            block: Some(change),
            host: None,
            heads: None,
            removed: None,
        },
    }
}

/// A file gets another length.
#[tactic(auto, unfolding(nq_model::specs::protocol::Decided::length_change, nq_model::specs::protocol::Change::raised_row, crate::specs::RequestsCapped::capped, crate::specs::Capped::capped_row))]
fn resized(row: &FileRow, blocks: u32) -> Effect
    ensures { result ≡ capped (length_change row.now blocks) }
{
    let value = row.rev.0.saturating_add(1);
    Effect {
        verdict: Verdict::Done,
        value,
        change: Change {
            file: Some(raised(row, blocks)),
            block: None,
            host: None,
            heads: None,
            removed: None,
        },
    }
}

/// A file is taken away.
#[tactic(auto, unfolding(nq_model::specs::protocol::Decided::removal, crate::specs::RequestsCapped::capped))]
fn removed(row: &FileRow) -> Effect
    ensures { result ≡ capped (removal row.now) }
{
    Effect {
        verdict: Verdict::Done,
        value: 0,
        change: Change {
            file: None,
            block: None,
            host: None,
            heads: None,
            removed: Some(row.id),
        },
    }
}

/// CREATE, by how much is kept, the server's numbers, and whether a kept file has the name.
pub(crate) fn create(
    space: Space,
    heads: &Heads,
    is_there: bool,
    name: &Name,
    blocks: u32,
) -> Effect
    ensures { result ≡ capped (effect_of_create space heads.now is_there name.now blocks) }
{
    if blocks == 0 || blocks > MOST_BLOCKS_OF_FILE {
        return none(Verdict::Invalid);
    }
    if is_there {
        return none(Verdict::Exist);
    }
    if space.files >= MOST_FILES || space.blocks > MOST_BLOCKS - blocks || heads.next >= MOST_IDS {
        return none(Verdict::NoSpace);
    }
    created(heads, name, blocks)
}

/// A push of a block that the file has. It is stored where its sender holds a writing lease, and it rests on this boot
/// and on the kept revision.
fn push(
    boot: u32,
    held: bool,
    row: &FileRow,
    block: BlockNo,
    base: &PushBase,
    body: Block,
) -> Effect
    ensures { result ≡ capped (effect_of_push boot held row.now block base.now body) }
{
    if held && base.boot == boot && base.base == row.rev {
        written(row, block, body)
    } else {
        none(Verdict::Fenced)
    }
}

/// A WRITE of a block that the file has.
fn write_in(
    boot: u32,
    conflict: bool,
    held: bool,
    row: &FileRow,
    block: BlockNo,
    base: Option<PushBase>,
    body: Block,
) -> Effect
    ensures { result ≡ capped (effect_of_write_in boot conflict held row.now block base body) }
{
    match base {
        Some(base) => push(boot, held, row, block, &base, body),
        None if conflict => none(Verdict::TryLater),
        None => written(row, block, body),
    }
}

/// A WRITE, by the file if it is kept.
pub(crate) fn write(
    boot: u32,
    conflict: bool,
    held: bool,
    row: Option<FileRow>,
    block: BlockNo,
    base: Option<PushBase>,
    body: Block,
) -> Effect
    ensures { result ≡ capped (effect_of_write boot conflict held row block base body) }
{
    let Some(row) = row else {
        return none(Verdict::Stale);
    };
    if block.0 >= row.blocks {
        return none(Verdict::Invalid);
    }
    write_in(boot, conflict, held, &row, block, base, body)
}

/// RESIZE, by how many blocks are kept and by the file if it is kept.
pub(crate) fn resize(in_all: u32, conflict: bool, row: Option<FileRow>, blocks: u32) -> Effect
    ensures { result ≡ capped (effect_of_resize in_all conflict row blocks) }
{
    let Some(row) = row else {
        return none(Verdict::Stale);
    };
    if blocks == 0 || blocks > MOST_BLOCKS_OF_FILE {
        return none(Verdict::Invalid);
    }
    if in_all.saturating_sub(row.blocks) > MOST_BLOCKS - blocks {
        return none(Verdict::NoSpace);
    }
    if conflict {
        return none(Verdict::TryLater);
    }
    resized(&row, blocks)
}

/// REMOVE, by the file if it is kept.
pub(crate) fn remove(conflict: bool, row: Option<FileRow>) -> Effect
    ensures { result ≡ capped (effect_of_remove conflict row) }
{
    match row {
        None => none(Verdict::Stale),
        Some(_) if conflict => none(Verdict::TryLater),
        Some(row) => removed(&row),
    }
}

/// Whether an incarnation is later than the one that is attached.
pub(crate) fn is_later(who: &Who, line: &HostRow) -> bool
    ensures { result ≡ nat_lt line.now.inc who.now.inc }
{
    line.inc < who.inc
}

/// What is said of a request that is not fresh, by the kept row of its host.
pub(crate) fn said_before(who: &Who, seq: Seq, line: &HostRow) -> Option<Decided>
    ensures { result ≡ decided_before who.now seq line.now }
{
    if who.inc < line.inc {
        Some(Decided::OldIncarnation)
    } else if line.inc < who.inc {
        Some(Decided::NotAttached)
    } else if seq == line.seq {
        Some(Decided::Again {
            verdict: line.verdict,
            value: line.value,
        })
    } else if seq < line.seq {
        Some(Decided::Old)
    } else {
        None
    }
}

/// The row that an effect leaves of the host that asked.
pub(crate) fn row_after(who: &Who, seq: Seq, effect: &Effect) -> HostRow
    ensures { result ≡ row_with who.now seq effect.now }
{
    HostRow {
        inc: who.inc,
        seq,
        verdict: effect.verdict,
        value: effect.value,
    }
}

/// The change in which an effect is kept, together with the row of the host that asked.
#[tactic(auto, unfolding(nq_model::specs::protocol::Decided::change_with))]
pub(crate) fn change_of(who: Who, seq: Seq, effect: Effect) -> Change
    ensures { result ≡ change_with who seq effect }
{
    let row = row_after(&who, seq, &effect);
    let mut change = effect.change;
    change.host = Some(HostChange {
        host: who.host,
        row,
    });
    change
}

//! What a fresh request comes to, over a keeper.

ghost use Rattle.std.specs.Prelude.{is_some};
ghost use Rattle.nq_keeper.specs.Asking.{Asks};
ghost use Rattle.nq_model.specs.protocol.Change.{row_of_found, heads_of, space_of};
ghost use Rattle.nq_model.specs.protocol.Decided.{effect_of_create, effect_of_write, effect_of_write_recovering, effect_of_resize, effect_of_remove, effect_of};
ghost use Rattle.nq_model.specs.protocol.Decided.{no_effect};
ghost use Rattle.nq_model.specs.protocol.Kept.{find_file, find_name, blocks_in_all};
ghost use Rattle.nq_keeper.specs.RequestsCapped.{capped};

use crate::requests::effects;
use crate::{KeepFault, Keeper};
use nq_base::{
    Block, BlockNo, Effect, FileId, Gate, Heads, Name, PushBase, Request, Space, Verdict,
};

/// The server's numbers, and how much is kept.
#[derive(Clone, Copy)]
struct Numbers {
    heads: Heads,
    space: Space,
}

/// A decision for which nothing of what is kept is asked.
fn unasked<K: Keeper>(keeper: &mut K, verdict: Verdict) -> Result<Effect, KeepFault>
    ensures { Asks (λ kept. capped (no_effect verdict)) result (K.content keeper.old) (K.content keeper.new) (K.faults keeper.old) (K.faults keeper.new)
        (K.follows keeper.old keeper.new) (K.leaves keeper.old keeper.new) }
{
    keeper.pause();
    Ok(effects::none(verdict))
}

/// Reads the server's numbers, and how much is kept.
fn read_numbers<K: Keeper>(keeper: &mut K) -> Result<Numbers, KeepFault>
    ensures { Asks (λ kept. record { heads = heads_of kept; space = space_of kept }) result (K.content keeper.old) (K.content keeper.new) (K.faults keeper.old)
        (K.faults keeper.new) (K.follows keeper.old keeper.new) (K.leaves keeper.old keeper.new) }
{
    let heads = keeper.heads()?;
    let space = keeper.space()?;
    Ok(Numbers { heads, space })
}

/// What a CREATE comes to.
pub(crate) fn create<K: Keeper>(
    keeper: &mut K,
    name: &Name,
    blocks: u32,
) -> Result<Effect, KeepFault>
    ensures { Asks (λ kept. capped (effect_of_create (space_of kept) (heads_of kept) (is_some (find_name name.now kept.files)) name.now blocks)) result
        (K.content keeper.old) (K.content keeper.new) (K.faults keeper.old) (K.faults keeper.new) (K.follows keeper.old keeper.new)
        (K.leaves keeper.old keeper.new) }
{
    let found = keeper.by_name(name)?;
    let numbers = read_numbers(keeper)?;
    let is_there = found.is_some();
    Ok(effects::create(numbers.space, &numbers.heads, is_there, name, blocks))
}

/// What a WRITE comes to: of this boot, or while the server recovers, of the boot that served last.
pub(crate) fn write<K: Keeper>(
    keeper: &mut K,
    boot: u32,
    conflict: bool,
    held: bool,
    file: FileId,
    block: BlockNo,
    base: Option<PushBase>,
    body: Block,
) -> Result<Effect, KeepFault>
    ensures { Asks (λ kept. capped (effect_of_write boot conflict held (row_of_found (find_file file kept.files)) block base body)) result
        (K.content keeper.old) (K.content keeper.new) (K.faults keeper.old) (K.faults keeper.new) (K.follows keeper.old keeper.new)
        (K.leaves keeper.old keeper.new) }
{
    let row = keeper.file(file)?;
    Ok(effects::write(boot, conflict, held, row, block, base, body))
}

/// What a RESIZE comes to.
pub(crate) fn resize<K: Keeper>(
    keeper: &mut K,
    conflict: bool,
    file: FileId,
    blocks: u32,
) -> Result<Effect, KeepFault>
    ensures { Asks (λ kept. capped (effect_of_resize (blocks_in_all kept.files) conflict (row_of_found (find_file file kept.files)) blocks)) result
        (K.content keeper.old) (K.content keeper.new) (K.faults keeper.old) (K.faults keeper.new) (K.follows keeper.old keeper.new)
        (K.leaves keeper.old keeper.new) }
{
    let row = keeper.file(file)?;
    let space = keeper.space()?;
    Ok(effects::resize(space.blocks, conflict, row, blocks))
}

/// What a REMOVE comes to.
pub(crate) fn remove<K: Keeper>(
    keeper: &mut K,
    conflict: bool,
    file: FileId,
) -> Result<Effect, KeepFault>
    ensures { Asks (λ kept. capped (effect_of_remove conflict (row_of_found (find_file file kept.files)))) result (K.content keeper.old) (K.content keeper.new)
        (K.faults keeper.old) (K.faults keeper.new) (K.follows keeper.old keeper.new) (K.leaves keeper.old keeper.new) }
{
    let row = keeper.file(file)?;
    Ok(effects::remove(conflict, row))
}

/// What a WRITE comes to while the server recovers: only a push can be stored.
fn write_recovering<K: Keeper>(
    keeper: &mut K,
    opened: u32,
    file: FileId,
    block: BlockNo,
    base: Option<PushBase>,
    body: Block,
) -> Result<Effect, KeepFault>
    ensures { Asks (λ kept. capped (effect_of_write_recovering opened (row_of_found (find_file file kept.files)) block base body)) result (K.content keeper.old)
        (K.content keeper.new) (K.faults keeper.old) (K.faults keeper.new) (K.follows keeper.old keeper.new) (K.leaves keeper.old keeper.new) }
{
    match base {
        None => unasked(keeper, Verdict::TryLater),
        Some(base) => write(keeper, opened, false, true, file, block, Some(base), body),
    }
}

/// What a fresh request comes to while the server recovers, after the boot `opened`.
fn while_recovering<K: Keeper>(
    keeper: &mut K,
    request: Request,
    opened: u32,
) -> Result<Effect, KeepFault>
    ensures { Asks (λ kept. capped (effect_of kept (Gate.Recovering opened) request)) result (K.content keeper.old) (K.content keeper.new) (K.faults keeper.old)
        (K.faults keeper.new) (K.follows keeper.old keeper.new) (K.leaves keeper.old keeper.new) }
{
    match request {
        Request::Attach { .. } => unasked(keeper, Verdict::Done),
        Request::Write {
            file,
            block,
            push,
            body,
            ..
        } => write_recovering(keeper, opened, file, block, push, body),
        _ => unasked(keeper, Verdict::TryLater),
    }
}

/// What a fresh request comes to while this boot serves.
fn while_serving<K: Keeper>(
    keeper: &mut K,
    request: Request,
    boot: u32,
    conflict: bool,
    writing_row: bool,
) -> Result<Effect, KeepFault>
    ensures { Asks (λ kept. capped (effect_of kept (Gate.Serving boot conflict writing_row) request)) result (K.content keeper.old) (K.content keeper.new)
        (K.faults keeper.old) (K.faults keeper.new) (K.follows keeper.old keeper.new) (K.leaves keeper.old keeper.new) }
{
    match request {
        Request::Attach { .. } => unasked(keeper, Verdict::Done),
        Request::Create { name, blocks, .. } => create(keeper, &name, blocks),
        Request::Write {
            file,
            block,
            push,
            body,
            ..
        } => write(keeper, boot, conflict, writing_row, file, block, push, body),
        Request::Resize { file, blocks, .. } => resize(keeper, conflict, file, blocks),
        Request::Remove { file, .. } => remove(keeper, conflict, file),
        _ => unasked(keeper, Verdict::TryLater),
    }
}

/// What a fresh request comes to.
pub(crate) fn effect<K: Keeper>(
    keeper: &mut K,
    request: Request,
    gate: Gate,
) -> Result<Effect, KeepFault>
    ensures { Asks (λ kept. capped (effect_of kept gate request)) result (K.content keeper.old) (K.content keeper.new) (K.faults keeper.old)
        (K.faults keeper.new) (K.follows keeper.old keeper.new) (K.leaves keeper.old keeper.new) }
{
    match gate {
        Gate::Recovering { opened } => while_recovering(keeper, request, opened),
        Gate::Serving {
            boot,
            conflict,
            writing_row,
        } => while_serving(keeper, request, boot, conflict, writing_row),
    }
}

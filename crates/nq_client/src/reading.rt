//! Reads that are answered from what a client has.

ghost use Rattle.std.specs.Prelude.{◌≡◌, is_some, true, if◌then◌else◌};
ghost use Rattle.nq_model.specs.laws.CachedAtOnce.{has_cached};
ghost use Rattle.nq_model.specs.protocol.Settle.{after_read, body_in, clean_after_read};
ghost use Rattle.nq_client.specs.State.{client_of};

use crate::state::State;
use nq_base::{Block, BlockNo, FileId, Spare};
use nq_cache::Cache;
use nq_client_parts::dirty::Dirty;

/// A copy of a block that is delayed, under way or clean, in room that is there. A clean one comes to the front.
pub(crate) fn read_held(
    dirty: &Dirty,
    cache: &mut Cache,
    file: FileId,
    block: BlockNo,
    room: &mut Spare,
) -> Option<Block>
    requires { room.old ≡ true }
    ensures body { result ≡ body_in file block dirty.now.dirty dirty.now.push cache.old.clean }
    ensures cache { cache.new ≡ record cache.old { clean = clean_after_read file block dirty.now.dirty dirty.now.push cache.old.clean } }
{
    match dirty.get(file, block) {
        Some(body) => Some(body.copied_in(room)),
        None => cache.read(file, block, room),
    }
}

/// Reads a block from what a client has, where no call is under way and a lease lets it. The copy is made in room that is there.
#[tactic(auto, unfolding(nq_model::specs::protocol::Settle::after_read))]
pub(crate) fn read_cached(
    state: &mut State,
    file: FileId,
    block: BlockNo,
    room: &mut Spare,
) -> Option<Block>
    requires { room.old ≡ true }
    ensures body { result ≡ has_cached (client_of state.old) file block }
    ensures client { client_of state.new ≡ (if is_some result then after_read (client_of state.old) file block else client_of state.old) }
{
    if !state.attached || state.call.is_some() {
        return None;
    }
    if !state.leases.lets_read(state.time, file, block) {
        return None;
    }
    let body = read_held(&state.dirty, &mut state.cache, file, block, room)?;
    state.leases.mark_used(file);
    Some(body)
}

//! What replies leave in the cache.

ghost use Rattle.std.specs.Prelude.{◌≡◌, ◌==◌, ◌+◌, ◌&&◌, OnOk, OnErr, if◌then◌else◌};
ghost use Rattle.nq_model.specs.protocol.Client.{is_revision, is_revision_before, purge, put_clean, revision_of};
ghost use Rattle.nq_model.specs.protocol.Hear.{clean_at_revision, grant_caches};
ghost use Rattle.nq_cache.specs.Granting.{clean_after_reply};

use crate::cache::Cache;
use nq_base::{Block, BlockNo, FileId, Grant, Mode, NoMemory, Rev};
use std::alloc::Global;

/// Whether the clean blocks of a file have this revision.
fn has_revision(cache: &Cache, file: FileId, rev: Rev) -> bool
    ensures { result ≡ is_revision rev (revision_of file cache.now.revisions) }
{
    match cache.rev(file) {
        Some(known) => known == rev,
        None => false,
    }
}

/// Whether a grant, if there is one, lets its holder cache.
pub fn lets_cache(grant: &Option<Grant>) -> bool
    ensures { result ≡ grant_caches grant.now }
{
    match grant {
        Some(grant) => match grant.mode {
            Mode::NonCaching => false,
            Mode::Reading | Mode::Writing => true,
        },
        None => false,
    }
}

/// Takes the clean blocks of a file out that are of another revision.
pub fn cleans(cache: &mut Cache, file: FileId, rev: Rev)
    ensures { cache.new ≡ record cache.old { clean = clean_at_revision file rev cache.old.revisions cache.old.clean } }
{
    if !has_revision(cache, file, rev) {
        cache.purge(file);
    }
}

/// Caches a block that came with a caching grant. Clean blocks of another revision go.
fn caches_granted(
    cache: &mut Cache,
    alloc: Global,
    file: FileId,
    block: BlockNo,
    body: &Block,
    rev: Rev,
) -> Result<(), NoMemory>
    ensures cached { OnOk result (cache.new
        ≡ record cache.old { clean = put_clean file block body.now (clean_at_revision file rev cache.old.revisions cache.old.clean) }) }
    ensures refused { OnErr result (cache.new ≡ cache.old) }
{
    let body = body.copied(alloc)?;
    if has_revision(cache, file, rev) {
        cache.put_block(file, block, body)
    } else {
        cache.put_alone(file, block, body)
    }
}

/// What a reply to READ leaves in the cache: clean blocks of another revision than that of the grant go, and the block is
/// cached under a caching grant.
pub fn caches_read(
    cache: &mut Cache,
    alloc: Global,
    file: FileId,
    block: BlockNo,
    body: &Block,
    grant: &Option<Grant>,
) -> Result<(), NoMemory>
    ensures cached { OnOk result (cache.new
        ≡ record cache.old { clean = clean_after_reply file block body.now grant.now cache.old.revisions cache.old.clean }) }
    ensures refused { OnErr result (cache.new ≡ cache.old) }
{
    match grant {
        None => Ok(()),
        Some(given) if lets_cache(grant) => {
            caches_granted(cache, alloc, file, block, body, given.rev)
        }
        Some(given) => {
            cleans(cache, file, given.rev);
            Ok(())
        }
    }
}

/// Whether a revision comes right after another.
fn comes_after(known: Rev, rev: Rev) -> bool
    ensures { result ≡ (known + 1 == rev) }
{
    known.0 < rev.0 && rev.0 - known.0 == 1
}

/// Whether the known revision of a file is the one before this.
fn is_revision_before(cache: &Cache, file: FileId, rev: Rev) -> bool
    ensures { result ≡ is_revision_before rev (revision_of file cache.now.revisions) }
{
    match cache.rev(file) {
        Some(known) => comes_after(known, rev),
        None => false,
    }
}

/// Caches the block of a write that went through where a caching lease is held and nothing else changed since the known
/// revision. Else the clean blocks of the file go.
pub fn caches_written(
    cache: &mut Cache,
    alloc: Global,
    file: FileId,
    block: BlockNo,
    body: &Block,
    rev: Rev,
    holds: bool,
) -> Result<(), NoMemory>
    ensures cached { OnOk result (cache.new
        ≡ record cache.old {
          clean = (if holds && is_revision_before rev
              (revision_of file cache.old.revisions) then put_clean file block body.now cache.old.clean else purge file cache.old.clean);
        }) }
    ensures refused { OnErr result (cache.new ≡ cache.old) }
{
    if holds && is_revision_before(cache, file, rev) {
        return cache.put_block(file, block, body.copied(alloc)?);
    }
    cache.purge(file);
    Ok(())
}

//! The fields of an image of version 2 as bytes, and where they stand: what the record of a change is made of.

ghost use Rattle.std.specs.Prelude.{◌≡◌, ◌<◌, ◌≤◌, ◌+◌, ◌-◌, ◌*◌, ◌^◌, ◌++◌, ℕ, IfOk, OnOk, length, replicate, slice_index};
ghost use Rattle.nq_image.specs.Layout.{block_place as place_of_block};
ghost use Rattle.nq_image.specs.Writing.{entries_of, heads_bytes, host_bytes, number_of as number_in, numbers_bytes, row_bytes, table_of_blocks};

use nq_base::{FileRow, Heads, HostRow, Verdict};
use nq_memory::NoMemory;
use std::alloc::Global;

/// Where the numbers of the server stand.
pub const HEADS_PLACE: u64 = 8;

/// Where the row of a host stands.
pub fn host_place(host: u32) -> u64
    requires { host < 64 }
    ensures { result ≡ 64 + 32 * host }
{
    64 + 32 * u64::from(host)
}

/// Where the row of a file stands.
pub fn row_place(slot: u32) -> u64
    requires { slot < 256 }
    ensures { result ≡ 2112 + 96 * slot }
{
    2112 + 96 * u64::from(slot)
}

/// Where a physical block stands.
pub fn block_place(block: u32) -> u64
    ensures { result ≡ place_of_block block }
{
    40960 + 4096 * u64::from(block)
}

/// Where the id of a row stands, by the physical block at which the tables begin.
pub fn id_place(tables: u32, slot: u32) -> u64
    requires near { tables ≤ 16384 }
    requires slot { slot < 256 }
    ensures { result ≡ place_of_block (tables + 256) + 4 * slot }
{
    block_place(tables + 256) + 4 * u64::from(slot)
}

/// The number of a verdict.
fn number_of(verdict: Verdict) -> u32
    ensures { result ≡ number_in verdict }
{
    match verdict {
        Verdict::Done => 0,
        Verdict::Fenced => 1,
        Verdict::Exist => 2,
        Verdict::NoSpace => 3,
        Verdict::Invalid => 4,
        Verdict::Stale => 5,
        Verdict::TryLater => 6,
    }
}

/// The numbers of the server.
///
/// # Errors
///
/// Memory was refused.
#[tactic(auto, unfolding(crate::specs::Writing::heads_bytes))]
pub fn spell_heads(alloc: Global, heads: &Heads) -> Result<Vec<u8>, NoMemory>
    ensures { IfOk result (λ bytes. bytes.items ≡ heads_bytes heads.now) }
{
    let mut bytes = Vec::with_capacity(alloc, 16)?;
    bytes.extend_from_slice(&heads.boot.to_be_bytes())?;
    bytes.extend_from_slice(&heads.opened.to_be_bytes())?;
    bytes.extend_from_slice(&heads.longest.to_be_bytes())?;
    bytes.extend_from_slice(&heads.next.to_be_bytes())?;
    Ok(bytes)
}

/// The row of a host.
///
/// # Errors
///
/// Memory was refused.
#[tactic(auto, unfolding(crate::specs::Writing::host_bytes))]
pub fn spell_host(alloc: Global, row: &HostRow) -> Result<Vec<u8>, NoMemory>
    ensures { IfOk result (λ bytes. bytes.items ≡ host_bytes row.now) }
{
    let mut bytes = Vec::with_capacity(alloc, 32)?;
    bytes.extend_from_slice(&row.inc.0.to_be_bytes())?;
    bytes.extend_from_slice(&number_of(row.verdict).to_be_bytes())?;
    bytes.extend_from_slice(&row.seq.0.to_be_bytes())?;
    bytes.extend_from_slice(&row.value.to_be_bytes())?;
    bytes.extend_from_slice(&[0; 8])?;
    Ok(bytes)
}

/// Adds zeros.
fn push_zeros(bytes: &mut Vec<u8>, count: usize) -> Result<(), NoMemory>
    requires { length bytes.old.items + count < 2 ^ 64 }
    ensures { OnOk result (bytes.new.items ≡ bytes.old.items ++ replicate count 0) }
{
    bytes.resize(bytes.len() + count, 0)?;
    Ok(())
}

/// The numbers in the row of a file. Its first block has no meaning in version 2.
#[tactic(auto, unfolding(crate::specs::Writing::numbers_bytes))]
fn spell_numbers(alloc: Global, blocks: u32, rev: u64) -> Result<Vec<u8>, NoMemory>
    ensures { IfOk result (λ bytes. bytes.items ≡ numbers_bytes blocks rev) }
{
    let mut bytes = Vec::with_capacity(alloc, 28)?;
    bytes.extend_from_slice(&blocks.to_be_bytes())?;
    bytes.extend_from_slice(&[0; 4])?;
    bytes.extend_from_slice(&rev.to_be_bytes())?;
    bytes.extend_from_slice(&[0; 12])?;
    Ok(bytes)
}

/// The row of a file.
///
/// # Errors
///
/// Memory was refused.
#[tactic(auto, unfolding(crate::specs::Writing::row_bytes, crate::specs::Writing::zeros_of))]
pub fn spell_row(alloc: Global, row: &FileRow) -> Result<Vec<u8>, NoMemory>
    ensures { IfOk result (λ bytes. bytes.items ≡ row_bytes row.now.name row.now.blocks row.now.rev) }
{
    let name = row.name.as_bytes();
    let numbers = spell_numbers(alloc, row.blocks, row.rev.0)?;
    let mut bytes = Vec::with_capacity(alloc, 96)?;
    bytes.extend_from_slice(&(name.len() as u32).to_be_bytes())?;
    bytes.extend_from_slice(name)?;
    push_zeros(&mut bytes, 64 - name.len())?;
    bytes.extend_from_slice(&numbers)?;
    Ok(bytes)
}

/// The entries of these blocks.
fn spell_entries(alloc: Global, blocks: &[u32]) -> Result<Vec<u8>, NoMemory>
    requires { (k : ℕ) → slice_index blocks.now k < 16641 }
    ensures { IfOk result (λ bytes. bytes.items ≡ entries_of blocks.now) }
{
    let mut bytes = Vec::with_capacity(alloc, 4096)?;
    for block in blocks {
        bytes.extend_from_slice(&(*block + 1).to_be_bytes())?;
    }
    Ok(bytes)
}

/// The table of a file with these blocks, 1024 at most.
///
/// # Errors
///
/// Memory was refused.
#[tactic(auto, unfolding(crate::specs::Writing::table_of_blocks, crate::specs::Writing::zeros_of))]
pub fn spell_table(alloc: Global, blocks: &[u32]) -> Result<Vec<u8>, NoMemory>
    requires short { length blocks.now ≤ 1024 }
    requires near { (k : ℕ) → slice_index blocks.now k < 16641 }
    ensures { IfOk result (λ bytes. bytes.items ≡ table_of_blocks blocks.now) }
{
    let mut bytes = spell_entries(alloc, blocks)?;
    push_zeros(&mut bytes, 4096 - 4 * blocks.len())?;
    Ok(bytes)
}

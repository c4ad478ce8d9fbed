//! What a change writes to an image of version 2: once its bytes are written, the image opens as the changed state. Each law
//! speaks of any image in which a state stands, and of any bytes that have the parts that are written and agree elsewhere.

ghost use Rattle.std.specs.Prelude.{◌≡◌, ◌+◌, ◌*◌, ◌<◌, ℕ, List, Some, None, All, length, slice_index_or};
ghost use Rattle.nq_base.specs.declared.Heads.{Heads};
ghost use Rattle.nq_base.specs.declared.HostRow.{HostRow};
ghost use Rattle.nq_model.specs.protocol.Change.{AreHeadsWithin, IsHostWithin, kept_as, with_block, with_file};
ghost use Rattle.nq_model.specs.protocol.Kept.{drop_file, with_files, with_row};
ghost use Rattle.nq_image.specs.Kept.{body_in};
ghost use Rattle.nq_image.specs.Standing.{
  AgreeBut,
  CanStand,
  HasBodies,
  IsBodyWritten,
  IsFileWritten,
  IsRowCleared,
  PlacedFile,
  Standing,
  Stands,
  blocks_in,
  files_in,
  kept_at,
  others,
  row_at,
  row_for,
  with_heads,
  with_host,
  with_placed,
};
ghost use Rattle.nq_image.specs.Writing.{heads_bytes, host_bytes, row_bytes};

/// The numbers of the server are the sixteen bytes at 8.
pub fn heads_are_sixteen_bytes()
    ensures stands { (s : Standing) (heads : Heads) (old new : List ℕ) → Stands old s → AreHeadsWithin s.heads.next heads
        → AgreeBut 8 (heads_bytes heads) s old new → Stands new (with_heads s heads) }
    ensures kept { (s : Standing) (heads : Heads) (old new : List ℕ) → AgreeBut 8 (heads_bytes heads) s old new
        → kept_at new (with_heads s heads) ≡ kept_as (kept_at old s).files (kept_at old s).hosts heads }
{}

/// What is kept of a host is its row.
pub fn a_host_is_its_row()
    ensures stands { (s : Standing) (host : ℕ) (row : HostRow) (old new : List ℕ) → host < 64 → Stands old s → IsHostWithin row
        → AgreeBut (64 + 32 * host) (host_bytes row) s old new → Stands new (with_host s host row) }
    ensures kept { (s : Standing) (host : ℕ) (row : HostRow) (old new : List ℕ) → AgreeBut (64 + 32 * host) (host_bytes row) s old new
        → kept_at new (with_host s host row) ≡ with_row (kept_at old s) host row }
{}

/// A body is the bytes of its block.
pub fn a_body_is_its_block()
    ensures stands { (s : Standing) (block : ℕ) (body old new : List ℕ) → Stands old s → IsBodyWritten s block body old new → Stands new s }
    ensures kept { (s : Standing) (file : PlacedFile) (k block : ℕ) (body old new : List ℕ) → Stands old s → file.slot < 256
        → row_at s file.slot ≡ Some file → k < length file.blocks → slice_index_or file.blocks k 0 ≡ block → IsBodyWritten s block body old new
        → kept_at new s ≡ with_files (kept_at old s) (with_block (record { file = file.id; block = k; body = body }) (kept_at old s).files) }
{}

/// A file that keeps its blocks is changed by its row.
pub fn a_file_is_changed_by_its_row()
    ensures { (s : Standing) (was file : PlacedFile) (old new : List ℕ) → Stands old s → CanStand s file → row_at s file.slot ≡ Some was
        → file.id ≡ was.id → file.blocks ≡ was.blocks → AgreeBut (2112 + 96 * file.slot) (row_bytes file.name (length file.blocks) file.rev) s old new
        → Stands new (with_placed s file.slot (Some file)) }
{}

/// A file is its row, its id, its table and its bodies.
pub fn a_file_is_its_row_id_and_table()
    ensures { (s : Standing) (file : PlacedFile) (old new : List ℕ) → Stands old s → CanStand s file → IsFileWritten s file old new
        → Stands new (with_placed s file.slot (Some file)) }
{}

/// A file in an unused row is a new one; one in place of the file of its id is that file changed.
pub fn a_file_is_kept_once_it_is_written()
    ensures made { (s : Standing) (file : PlacedFile) (old new : List ℕ) → Stands old s → CanStand s file → row_at s file.slot ≡ None
        → All (λ f. f.id < file.id) (files_in s) → HasBodies s file old new → IsFileWritten s file old new
        → kept_at new (with_placed s file.slot (Some file)) ≡ with_files (kept_at old s) (with_file (row_for file) (kept_at old s).files) }
    ensures changed { (s : Standing) (was file : PlacedFile) (old new : List ℕ) → Stands old s → CanStand s file → row_at s file.slot ≡ Some was
        → was.id ≡ file.id → HasBodies s file old new → All (λ block. body_in new block ≡ body_in old block) (blocks_in (others file.slot s.rows))
        → kept_at new (with_placed s file.slot (Some file)) ≡ with_files (kept_at old s) (with_file (row_for file) (kept_at old s).files) }
{}

/// A row and an id of zeros are no file.
pub fn a_cleared_row_is_no_file()
    ensures stands { (s : Standing) (slot : ℕ) (old new : List ℕ) → slot < 256 → Stands old s → IsRowCleared s slot old new
        → Stands new (with_placed s slot None) }
    ensures kept { (s : Standing) (was : PlacedFile) (old new : List ℕ) → Stands old s → was.slot < 256 → row_at s was.slot ≡ Some was
        → IsRowCleared s was.slot old new
        → kept_at new (with_placed s was.slot None) ≡ with_files (kept_at old s) (drop_file was.id (kept_at old s).files) }
{}

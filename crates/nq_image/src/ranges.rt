//! The ranges that a change writes, as bytes of an image with those of a range in their place.

ghost use Rattle.std.specs.Prelude.{◌≡◌, ◌≤◌, ◌<◌, ◌+◌, ℕ, false, List, All, length, slice_index};
ghost use Rattle.nq_image.specs.Layout.{block_place as place_of_block};
ghost use Rattle.nq_image.specs.Standing.{
  Agree,
  AgreeBut,
  CanStand,
  IsBodyWritten,
  IsFileWritten,
  IsFree,
  IsRowCleared,
  IsUsed,
  PlacedFile,
  Standing,
  Stands,
  overwritten,
  with_file_written,
  with_row_cleared,
};
ghost use Rattle.nq_image.specs.Tables.{is_of_tables};

/// A range in the numbers and rows changes nothing else.
pub fn a_range_of_the_rows_is_written()
    ensures { (bytes : List ℕ) (s : Standing) (place : ℕ) (part : List ℕ) → Stands bytes s → place + length part ≤ 28672
        → AgreeBut place part s bytes (overwritten place part bytes) }
{}

/// A range in the record of a change changes nothing that stands in the image, and so does a free block.
pub fn a_free_range_is_written()
    ensures of_record { (bytes : List ℕ) (s : Standing) (place : ℕ) (part : List ℕ) → Stands bytes s → 28672 ≤ place → place + length part ≤ 40960
        → Agree s bytes (overwritten place part bytes) }
    ensures of_block { (bytes : List ℕ) (s : Standing) (block : ℕ) (part : List ℕ) → Stands bytes s → IsFree s block → length part ≡ 4096
        → place_of_block block ≤ length bytes → Agree s bytes (overwritten (place_of_block block) part bytes) }
{}

/// A block that is none of the tables' gets another body, and nothing else does.
pub fn a_body_is_written()
    ensures { (bytes : List ℕ) (s : Standing) (block : ℕ) (part : List ℕ) → Stands bytes s → is_of_tables s.tables block ≡ false → length part ≡ 4096
        → place_of_block block ≤ length bytes → IsBodyWritten s block part bytes (overwritten (place_of_block block) part bytes) }
{}

/// The three ranges of a file whose blocks the disk holds whole, and the two of one that goes.
pub fn a_file_is_three_ranges()
    ensures written { (bytes : List ℕ) (s : Standing) (file : PlacedFile) → Stands bytes s → CanStand s file
        → All (λ block. place_of_block block + 4096 ≤ length bytes) file.blocks → IsFileWritten s file bytes (with_file_written s file bytes) }
    ensures cleared { (bytes : List ℕ) (s : Standing) (slot : ℕ) → Stands bytes s → slot < 256 → IsRowCleared s slot bytes (with_row_cleared s slot bytes) }
{}

/// Bytes that are the same wherever something stands: whatever a stop leaves of a write of free bytes is such.
pub fn bytes_agree_where_something_stands()
    ensures { (s : Standing) (old new : List ℕ) → Stands old s → length old ≤ length new
        → ((place : ℕ) → place < length old → IsUsed s place → slice_index new place ≡ slice_index old place) → Agree s old new }
{}

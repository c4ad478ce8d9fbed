//! What a change of an image and the migration of one of version 1 keep, and what is read of an image: they join what `nq_plan` writes
//! and reads with what `nq_image` says of each part. Each law stands on a function that returns nothing, whose clause is the law and whose
//! proof stands in `proofs/`.

mod changes;
mod free;
mod head;
mod migrated;
mod reading;
mod settled;
mod stopping;

pub use changes::a_change_is_its_ranges;
pub use free::{free_blocks_may_be_any, new_blocks_are_free};
pub use head::an_image_of_version_one_is_what_its_first_bytes_say;
pub use migrated::{
    a_migrated_image_opens_the_same, an_image_of_version_one_is_its_rows_and_blocks,
};
pub use reading::{a_closed_image_is_read_as_it_opens, what_is_read_is_held};
pub use settled::{a_closed_image_opens_as_it_stands, a_settled_change_is_whole};
pub use stopping::{a_migration_stands_for_the_same, what_stands_behind_the_files_may_be_any};

//! The image of what a server keeps, as a disk has it: which bytes are one, which field is wrong where they are not, and
//! for what they stand. No disk is in it: each function reads one part of an image from bytes that it is given.
#![tactic(auto)]

mod bounds;
mod changes;
mod fault;
mod fields;
mod heads;
mod hosts;
mod ids;
mod image;
mod kept;
mod order;
mod ranges;
mod rows;
mod spelling;
mod standing;
mod tables;
mod whole;
mod writing;

pub use bounds::what_opens_is_within_bounds;
pub use changes::{
    a_body_is_its_block, a_cleared_row_is_no_file, a_file_is_changed_by_its_row,
    a_file_is_its_row_id_and_table, a_file_is_kept_once_it_is_written, a_host_is_its_row,
    heads_are_sixteen_bytes,
};
pub use fault::{ImageFault, WrongField};
pub use fields::piece;
pub use heads::{Boots, Front, read_boots, read_front, version_of};
pub use hosts::{read_host, read_hosts};
pub use ids::{check_held, read_ids, whole_blocks};
pub use image::{ImageOne, ImageTwo, Rows, Tables, fresh_marks, read_all_rows, read_one, read_two};
pub use kept::{FoundFile, KeptImage, kept_of, numbers_from, read_kept};
pub use order::{first_wrong_is_least, heads_are_in_order, rows_are_in_order, tables_are_in_order};
pub use ranges::{
    a_body_is_written, a_file_is_three_ranges, a_free_range_is_written,
    a_range_of_the_rows_is_written, bytes_agree_where_something_stands,
};
pub use rows::{Slot, Version, blocks_in, blocks_of, read_row, read_rows};
pub use spelling::{
    HEADS_PLACE, block_place, host_place, id_place, row_place, spell_heads, spell_host, spell_row,
    spell_table,
};
pub use standing::{
    free_bytes_may_be_any, what_is_read_stands, what_stands_is_apart, what_stands_opens,
};
pub use tables::{PHYSICAL_BLOCKS, TABLE_BLOCKS, read_table, read_tables};
pub use whole::{Image, read_image};
pub use writing::{each_kept_state_has_an_image, nothing_is_kept_in_zeros};

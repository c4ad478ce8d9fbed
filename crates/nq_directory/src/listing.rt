//! The messages with which a client lists a directory under a reading lease, read and written.
//!
//! A READDIRLOOK asks for a page of the names of a directory with the files that have them, so that a client which holds the
//! whole list answers names itself (Macklem 1994). A DIREVICTED asks a holder to give its list up, and a DIRVACATED gives it up.
//!
//! Each message has one spelling with AUTH_NULL (`specs/Messages.antt`). What any bytes are as such a message, says
//! `specs/Reading.antt`.

mod laws;
mod messages;
mod reading;
mod writing;

pub use laws::messages_are_read;
pub use messages::{
    DIR_EVICTED_PROCEDURE, DIR_VACATED_PROCEDURE, DirTag, LATER_STATUS, MOST_NAMES, Page, PageTold,
    READ_DIR_PROCEDURE, ReadDir,
};
pub use reading::{read_dir_evicted, read_dir_vacated, read_read_dir, read_told};
pub use writing::{BegunPage, dir_evicted_bytes, dir_vacated_bytes, later_bytes, read_dir_bytes};

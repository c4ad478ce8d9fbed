//! The table.

ghost use Rattle.std.specs.Prelude.{◌≡◌, ◌^◌, ◌<◌, ◌≤◌, ◌↔◌, length, None, IsTrue, IsErr, IfOk, OnOk, OnErr};
ghost use Rattle.nq_model.specs.protocol.Ask.{marked};
ghost use Rattle.nq_model.specs.protocol.Profile.{most_rows};
ghost use Rattle.nq_model.specs.protocol.ServerStep.{end_reading};
ghost use Rattle.nq_model.specs.protocol.Table.{empty_table, next_tag, find_row, put_row, drop_row, drop_host, drop_rows_of, with_rows, after_draw};
ghost use Rattle.nq_lease.specs.Ends.{earliest};
ghost use Rattle.nq_lease.specs.Rows.{AreInOrder, rows_of};

use crate::changes::{self, Full, MOST_ROWS};
use crate::ends::End;
use crate::rows;
use nq_base::{Access, FileId, Host, NoMemory, Row, RowKey, Tag, Ticks};
use std::alloc::Global;
use std::marker::Model;

/// The lease table of a boot. Contracts see the boot, how many tags it has drawn, and the rows.
#[derive(Drop)]
pub struct Table {
    boot: u32,
    drawn: u64,
    rows: Vec<Row>,
    ends: Vec<End>,
}

impl Model for Table {
    ghost use Rattle.std.specs.Prelude.{vec_capacity};
    ghost use Rattle.nq_model.specs.protocol.Table.{Table as LeaseTable};
    ghost use Rattle.nq_lease.specs.Kept.{IsKept};

    ghost Value = { LeaseTable };

    ghost view = { λ t. record { boot = t.boot; drawn = t.drawn; rows = t.rows.items } };

    ghost invariant = { λ t. IsKept t.rows.items (vec_capacity t.rows) t.ends.items (vec_capacity t.ends) };
}

#[tactic(auto, unfolding(nq_model::specs::protocol::Table::empty_table, nq_model::specs::protocol::Table::with_rows, nq_model::specs::protocol::Table::after_draw))]
impl Table {
    /// An empty table, with room for all rows that there can be.
    ///
    /// # Errors
    ///
    /// Only want of memory. No other call wants any.
    pub fn new(alloc: Global, boot: u32) -> Result<Table, NoMemory>
        ensures { IfOk result (λ t. t ≡ empty_table boot) }
    {
        let rows = Vec::with_capacity(alloc, MOST_ROWS)?;
        let ends = Vec::with_capacity(alloc, MOST_ROWS)?;
        Ok(Table {
            boot,
            drawn: 0,
            rows,
            ends,
        })
    }

    /// The boot.
    pub fn boot(&self) -> u32
        ensures { result ≡ self.now.boot }
    {
        self.boot
    }

    /// The rows, in order of files, then hosts.
    pub fn rows(&self) -> &[Row]
        ensures rows { result.now ≡ self.now.rows }
        ensures ordered { AreInOrder self.now.rows }
    {
        self.rows.as_slice()
    }

    /// The rows of a file, in order of hosts.
    pub fn rows_of(&self, file: FileId) -> &[Row]
        ensures { result.now ≡ rows_of file self.now.rows }
    {
        rows::of_file(self.rows.as_slice(), file)
    }

    /// How many rows there are: at most 2048.
    pub fn len(&self) -> usize
        ensures value { result ≡ length self.now.rows }
        ensures most { result ≤ most_rows }
    {
        self.rows.len()
    }

    /// Whether there are none.
    pub fn is_empty(&self) -> bool
        ensures { IsTrue result ↔ (length self.now.rows ≡ 0) }
    {
        self.rows.is_empty()
    }

    /// The row of a file and a host.
    pub fn row(&self, key: RowKey) -> Option<Row>
        ensures { result ≡ find_row key.file key.host self.now.rows }
    {
        rows::find(self.rows.as_slice(), key.file, key.host)
    }

    /// The least time at which a row ends, in ticks; None where there is no row. A writing row ends when the write slack
    /// of 5 ticks has passed since its lease was over and since its last write was heard, another when its lease is
    /// over. A sum that is too large stops at the last time.
    pub fn earliest(&self) -> Option<Ticks>
        ensures { result ≡ earliest self.now.rows }
    {
        let first = self.ends.first().copied()?;
        Some(first.time)
    }

    /// How many tags were drawn.
    pub fn drawn(&self) -> u64
        ensures { result ≡ self.now.drawn }
    {
        self.drawn
    }

    /// The tag that is drawn next.
    pub(crate) fn peek_tag(&self) -> Tag
        requires { self.now.drawn < 2 ^ 63 }
        ensures { result ≡ next_tag self.now }
    {
        Tag {
            boot: self.boot,
            number: self.drawn + 1,
        }
    }

    /// Draws a tag: the numbers are 1, 2, 3 and so on.
    pub(crate) fn next_tag(&mut self) -> Tag
        requires { self.old.drawn < 2 ^ 63 }
        ensures tag { result ≡ next_tag self.old }
        ensures drawn { self.new ≡ after_draw self.old self.old.rows }
    {
        let tag = self.peek_tag();
        self.drawn += 1;
        tag
    }

    /// Puts a row in, in place of the one of its file and host. It takes no memory.
    ///
    /// # Errors
    ///
    /// `Full` exactly where there is none of its file and host and 2048 rows are there; then nothing changed.
    pub fn put_row(&mut self, row: Row) -> Result<(), Full>
        ensures put { OnOk result (self.new ≡ with_rows self.old (put_row row self.old.rows)) }
        ensures kept { OnErr result (self.new ≡ self.old) }
        ensures full { IsErr result ↔ ((find_row row.file row.who.host self.old.rows ≡ None) × (length self.old.rows ≡ most_rows)) }
    {
        changes::put_row(&mut self.rows, &mut self.ends, &row)
    }

    /// Drops the row of a file and a host, if there is one.
    pub fn drop_row(&mut self, key: RowKey)
        ensures { self.new ≡ with_rows self.old (drop_row key.file key.host self.old.rows) }
    {
        changes::take_row(&mut self.rows, &mut self.ends, key.file, key.host);
    }

    /// Drops the rows of a host.
    pub fn drop_host(&mut self, host: Host)
        ensures { self.new ≡ with_rows self.old (drop_host host self.old.rows) }
    {
        changes::take_of_host(&mut self.rows, &mut self.ends, host);
    }

    /// Drops the rows of a file.
    pub fn drop_file(&mut self, file: FileId)
        ensures { self.new ≡ with_rows self.old (drop_rows_of file self.old.rows) }
    {
        changes::take_of_file(&mut self.rows, &mut self.ends, file);
    }

    /// Drops the rows that are no writing ones and whose lease is over at this time.
    pub fn drop_over(&mut self, now: Ticks)
        ensures { self.new ≡ with_rows self.old (end_reading now self.old.rows) }
    {
        changes::take_over(&mut self.rows, &mut self.ends, now);
    }

    /// Marks each row of the file that is in the way of what this host is about to do as evicting.
    pub fn mark_evicting(&mut self, file: FileId, host: Host, access: Access)
        ensures { self.new ≡ with_rows self.old (marked file host access self.old.rows) }
    {
        changes::mark(&mut self.rows, file, host, access);
    }
}

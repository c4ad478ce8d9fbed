//! Columns of a fixed width.

use crate::chart::{Page, Part};

/// Puts a number behind so many blanks that it fills a column, and an end behind it.
pub(crate) fn put_right(page: &mut Page, number: u64, width: usize, end: &str) {
    let mut longer = 10u64;
    for _ in 1..width {
        if number < longer {
            page.put(&[Part::Text(" ")]);
        }
        longer = longer.saturating_mul(10);
    }
    page.put(&[Part::Number(number), Part::Text(end)]);
}

/// Puts so many blanks that the page ends there.
pub(crate) fn put_blanks(page: &mut Page, end: usize) {
    for _ in page.len()..end {
        page.put(&[Part::Text(" ")]);
    }
}

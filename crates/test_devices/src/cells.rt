//! A row of a table that is written as text.

/// Takes a row apart. Its cells are octets, with `|` between two.
#[derive(Clone, Copy)]
pub struct Cells<'t> {
    rest: &'t [u8],
}

impl<'t> Cells<'t> {
    /// All cells of `row`.
    pub fn new(row: &'t [u8]) -> Cells<'t> {
        Cells { rest: row }
    }

    /// The next cell; without octets after the last.
    pub fn octets(&mut self) -> &'t [u8] {
        let row = self.rest;
        match row.iter().position(|octet| *octet == b'|') {
            Some(end) if end < row.len() => {
                self.rest = &row[end + 1..];
                &row[..end]
            }
            _ => {
                self.rest = b"";
                row
            }
        }
    }

    /// The number that the next cell spells in decimal; none where it spells none.
    pub fn number(&mut self) -> Option<u64> {
        str::from_utf8(self.octets()).ok()?.parse::<u64>().ok()
    }

    /// The cells that are left.
    pub fn rest(self) -> &'t [u8] {
        self.rest
    }
}

//! A table of G codes, and how a code is looked up. The tables themselves are in system.rt. Other
//! crates call `row_of_code` there; but for tests none calls a table itself.
ghost use Rattle.std.specs.Prelude.{◌≡◌, ◌≢◌, ◌↔◌, List, IsTrue, IsNone, IfSome, Some, All, Contains, filter, false};
ghost use Rattle.code_tables.specs.Codes.{codes_stand_once, row_of, is_of_group, last_of, last_code_of_group};

use crate::row::Row;
use std::marker::Model;

/// A table of `N` rows in which no code stands twice.
#[derive(Debug, Drop)]
pub struct CodeTable<const N: usize> {
    /// The rows, of which no two have one code.
    rows: [Row; N],
}

// Clauses see the list of rows.
impl<const N: usize> Model for CodeTable<N> {
    ghost use Rattle.std.specs.Prelude.{List, IsTrue};
    ghost use Rattle.code_tables.specs.declared.row.Row.{Row};
    ghost use Rattle.code_tables.specs.Codes.{codes_stand_once};

    ghost Value = { List Row };

    ghost view = { λ t. t.rows };

    ghost invariant = { λ t. IsTrue (codes_stand_once t.rows) };
}

impl<const N: usize> CodeTable<N> {
    /// The table of these rows.
    pub fn new(rows: [Row; N]) -> Self
        requires { IsTrue (codes_stand_once rows) }
        ensures { result ≡ rows.entry }
    {
        CodeTable { rows }
    }

    /// The row of a code, if the table has one.
    pub fn find(&self, code: u16) -> Option<Row>
        ensures row { result ≡ row_of self.now code }
        ensures found { IfSome result (λ row. Contains self.now row × (row.code ≡ code)) }
        ensures none { IsNone result ↔ All (λ row. row.code ≢ code) self.now }
        ensures only { (row : Row) → Contains self.now row → row.code ≡ code → result ≡ Some row }
    {
        self.rows.iter().find(|row| row.code == code).copied()
    }

    /// Of the codes of a block, in their order, the one of this group that counts: the last. A code
    /// that the table lacks is of no group.
    pub fn group_last(&self, codes: &[u16], group: u8) -> Option<u16>
        ensures last { result ≡ last_code_of_group self.now codes.now group }
        ensures code { result ≡ last_of (filter (is_of_group self.now group) codes.now) }
        ensures none { IsNone result ↔ All (λ code. is_of_group self.now group code ≡ false) codes.now }
    {
        let mut last = None;
        for code in codes {
            if let Some(row) = self.find(*code) {
                last = row.or_before(last, group);
            }
        }
        last.map(|row| row.code)
    }
}

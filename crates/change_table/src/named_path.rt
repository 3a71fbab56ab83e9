ghost use Rattle.std.specs.Prelude.{◌≡◌};
ghost use Rattle.change_table.specs.Rows.{row_in};

use crate::row::Row;
use dsv_base::Path;
use std::marker::Model;

/// A path that changes name, with what they did last to it. Contracts see these two.
#[derive(Debug, Drop)]
pub struct NamedPath<'a> {
    row: &'a Row,
}

impl<'a> Model for NamedPath<'a> {
    ghost use Rattle.std.specs.Prelude.{List, ℕ};
    ghost use Rattle.change_table.specs.ChangeTables.{LastChanges};
    ghost use Rattle.change_table.specs.Rows.{row_in};

    ghost Value = { List ℕ × LastChanges };

    ghost view = { λ n. row_in n.row.now };
}

impl<'a> NamedPath<'a> {
    /// The path of a row.
    pub(crate) fn of(row: &'a Row) -> NamedPath<'a>
        ensures { result ≡ row_in row.now }
    {
        NamedPath { row }
    }

    /// The path.
    pub fn path(&self) -> &'a Path
        ensures { result.now ≡ self.now.0 }
    {
        &self.row.path
    }
}

//! Shapes of collections.

ghost use Rattle.std.specs.Prelude.{◌↔◌, IsTrue};
ghost use Rattle.plan_core.specs.Place.{IsRow, IsColumn};

use ptg_base::Text;

/// A collection of the data without its tiles: its number of rows of tiles, and its number of columns if it has two
/// dimensions.
#[derive(Drop)]
pub struct Shape {
    pub name: Text,
    pub rows: u32,
    pub cols: Option<u32>,
    /// The number of the type of its tiles.
    pub datatype: u32,
}

impl Shape {
    /// Whether it has this row.
    pub fn has_row(&self, i: i64) -> bool
        ensures { IsTrue result ↔ IsRow self.now.rows i }
    {
        0 <= i && i < i64::from(self.rows)
    }

    /// Whether it has this column. In one dimension the only column is 0.
    pub fn has_column(&self, j: i64) -> bool
        ensures { IsTrue result ↔ IsColumn self.now.cols j }
    {
        match self.cols {
            None => j == 0,
            Some(cols) => 0 <= j && j < i64::from(cols),
        }
    }
}

//! Codes of the faults of data files.

use ptg_base::Refusal;

/// The code of a fault in a data file.
#[derive(Clone, Copy, Debug, PartialEq, Eq)]
pub enum DataCode {
    /// The file has more than 16 MiB.
    TooLong,
    /// There is no record, or the first one is not `elems`.
    NoElems,
    /// A later record gives the number of elements of DEFAULT again.
    ElemsTwice,
    /// The first field is not one of the five words.
    UnknownRow,
    /// The number of fields is not that of the word.
    FieldCount,
    /// The number of elements is not a whole number from 1 to 4,096.
    BadElems,
    /// The name of an integer, a collection or a type is not spelled as a name.
    BadName,
    /// An integer or a collection has the name of an earlier one.
    NameTwice,
    /// A type has the name of an earlier one, or DEFAULT.
    TypeTwice,
    /// The type would be the 17th, counting DEFAULT.
    TooManyTypes,
    /// A collection's type is neither DEFAULT nor a type of an earlier record.
    UnknownType,
    /// A tile's collection is not in an earlier record.
    UnknownColl,
    /// A tile has no value, or more values than its type has elements.
    TileCount,
    /// A field that should be a whole number is not one.
    BadNumber,
    /// A collection has no tile, or more than 65,536.
    TooManyTiles,
    /// The tiles of all collections have more than 16,777,216 elements.
    TooManyElements,
    /// A tile's index is outside its collection.
    BadIndex,
    /// An earlier record has the same tile.
    TileTwice,
    /// The data have no integer and no collection for a global of the job.
    MissingName,
}

/// A fault of a data file, with the number of its record, counted from 1; 0 if the file is too long.
#[derive(Clone, Copy, Debug, PartialEq, Eq)]
pub struct DataFault {
    pub row: u64,
    pub code: DataCode,
}

/// Why data were not read.
pub type DataRefusal = Refusal<DataFault>;

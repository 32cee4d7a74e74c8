//! Laws of the command line.

ghost use Rattle.ptg_words.specs.Laws.{FilesAreText, NumbersInRange};

/// A law: the names of files in a command are text.
pub fn files_are_text()
    ensures { FilesAreText }
{}

/// A law: the numbers of a command are in their ranges. These are 1 to 64 workers or ranks, 1 to 256 shards, 1 to 96
/// rows of tiles, and a seed of 64 bits.
pub fn commands_have_numbers_in_range()
    ensures { NumbersInRange }
{}

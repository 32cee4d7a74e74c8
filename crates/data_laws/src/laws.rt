//! Laws that derive the data and the first fault of a text from the whole list of its records.

ghost use Rattle.std.specs.Prelude.{◌≡◌, ℕ, IsTrue, List, Ok};
ghost use Rattle.std.specs.List.{list_all};
ghost use Rattle.coll_data.specs.Data.{Data};
ghost use Rattle.data_read.specs.Reading.{data_of};
ghost use Rattle.data_laws.specs.Codes.{FaultAtStartIsFirstCode, FaultIsFirstCode};
ghost use Rattle.data_laws.specs.Integers.{has_64_bits};
ghost use Rattle.data_laws.specs.WholeTexts.{DataAreByRecords, FaultIsFirst};

/// A law: the fault of a record is the first code that fits it. A record that no code fits has no fault.
pub fn the_first_code_is_the_fault()
    ensures later { FaultIsFirstCode }
    ensures start { FaultAtStartIsFirstCode }
{}

/// A law: a text spells data if and only if no code fits one of its records; these data are then what its records make
/// as a whole.
pub fn data_are_by_records()
    ensures { DataAreByRecords }
{}

/// A law: the fault of a text is that of the first record that a code fits; no later record matters.
pub fn faults_are_first()
    ensures { FaultIsFirst }
{}

/// A law: the integers of data have 64 bits.
pub fn integers_have_64_bits()
    ensures { (text : List ℕ) (given : Data) → data_of text ≡ Ok given → IsTrue (list_all has_64_bits given.ints) }
{}

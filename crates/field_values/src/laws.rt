//! Facts about all values and names, which a proof can call for.
ghost use Rattle.field_values.specs.Laws.{FaultsAreTold, FieldsAreOrdered};
ghost use Rattle.field_values.specs.Value.{ValuesReadBack, TextsWriteBack};

/// A law: each value is read back from its text, so no two values have one text.
pub fn values_read_back()
    ensures { ValuesReadBack }
{}

/// A law: each text is written back from the value that it is read as, so no two texts have one value.
pub fn texts_write_back()
    ensures { TextsWriteBack }
{}

/// A law: three names without a fault are names that a field may have, and the other way round. A fault that is told is the
/// first thing that is wrong with them: its name has that fault, and the names before it have none.
pub fn faults_are_told()
    ensures { FaultsAreTold }
{}

/// A law: fields are equal where their three names are the same, and ordered by dataset, then row, then column.
pub fn fields_are_ordered()
    ensures { FieldsAreOrdered }
{}

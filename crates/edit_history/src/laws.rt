//! Facts about what undoes an edit, which a proof can call for.
ghost use Rattle.edit_history.specs.Laws.{EntriesAreTold, EntriesUndo};

/// A law: an entry tells each field that is written, once, and no other, each with the value that it has and with whether its row is
/// there. No field is written twice by the writes that undo an entry.
pub fn entries_are_told()
    ensures { EntriesAreTold }
{}

/// A law: after writes, and those that undo what they wrote over, each field that had a value has it again, each that had none reads as
/// one without a value, unless its row is new and can be deleted, and each such row is deleted. So it is also where what is undone is an
/// undo itself.
pub fn entries_undo()
    ensures { EntriesUndo }
{}

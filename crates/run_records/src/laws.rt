//! Laws of the texts, each the contract of a function that does nothing.

ghost use Rattle.std.specs.Prelude.{◌≡◌, Ok, true};
ghost use Rattle.run_records.specs.declared.records.Ending.{Ending};
ghost use Rattle.run_records.specs.RecordText.{Contents, IsRecord, record_in, record_text, same_ending};

/// The text of a record is read as that record. So no two records have one text.
pub fn text_is_read_back()
    ensures { (record_of : Contents) → IsRecord record_of → record_in (record_text record_of) ≡ Ok record_of }
{}

/// Runs that ended in the same way have one ending.
pub fn same_endings_are_one()
    ensures { (first second : Ending) → same_ending first second ≡ true → first ≡ second }
{}

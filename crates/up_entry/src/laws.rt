//! What holds of the spellings of entries, their parts and records, and of how they are read, whatever the input; and of an
//! entry that was checked.

ghost use Rattle.std.specs.Prelude.{◌≡◌, ◌↔◌, ℕ, List, Ok, true, false, IsTrue};
ghost use Rattle.up_bytes.specs.Spelling.{list, text};
ghost use Rattle.up_names.specs.PathNames.{canonical, IsCanonical};
ghost use Rattle.up_entry.specs.declared.entries.Entry.{Entry};
ghost use Rattle.up_entry.specs.declared.puts.Checked.{Checked};
ghost use Rattle.up_entry.specs.declared.puts.PutEntry.{PutEntry};
ghost use Rattle.up_entry.specs.Checking.{checked_as, IsChecked};
ghost use Rattle.up_entry.specs.FixedForm.{has_fixed_form, HasFixedForm};
ghost use Rattle.up_entry.specs.RawEntries.{raw_entry, raw_entry_at, FitsRawEntry};
ghost use Rattle.up_entry.specs.Reading.{blocks_at, endpoint_at, entry_at, path_at, rec_at, rec_of, user_at};
ghost use Rattle.up_bytes.specs.Sequences.{AreFields, AreMessages};
ghost use Rattle.up_entry.specs.Spelling as spelling;
ghost use Rattle.up_entry.specs.Spelling.{endpoint_text, FitsBlocks, FitsEndpoint, FitsEntry, FitsRec, FitsUser, FitsWhole, IsSpelled};

/// Each path, user, endpoint and list of blocks has one spelling.
pub fn parts_have_one_spelling()
    ensures path { AreFields IsCanonical (λ path. text (canonical path)) path_at }
    ensures user { AreFields FitsUser text user_at }
    ensures endpoint { AreFields FitsEndpoint
        (λ endpoint. text (endpoint_text endpoint)) endpoint_at }
    ensures blocks { AreFields FitsBlocks (list spelling.block) blocks_at }
{}

/// Each entry that keeps its format's rules has one spelling; one that is read without marks is whole. So has each raw entry.
pub fn entries_have_one_spelling()
    ensures any { AreFields FitsEntry spelling.entry (entry_at true) }
    ensures whole { AreFields FitsWhole spelling.entry (entry_at false) }
    ensures raw { AreFields FitsRawEntry raw_entry raw_entry_at }
{}

/// Each record has one spelling, and exactly the bytes that spell a record are read as one.
pub fn records_have_one_spelling()
    ensures fields { AreFields FitsRec spelling.rec rec_at }
    ensures whole { AreMessages FitsRec spelling.rec rec_of }
{}

/// The form of each entry of a tree is told by its rules, one by one. An entry that has it keeps its format's rules too.
pub fn fixed_form_is_told_by_rules()
    ensures rules { (e : Entry) → IsTrue (has_fixed_form e) ↔ HasFixedForm e }
    ensures spelled { (e : Entry) → HasFixedForm e → IsSpelled e }
{}

/// An entry that keeps the rules of Put has the form of each entry of a tree. It is what was handed in, under the path that
/// it was signed for, by this user, with no sequence of its own yet.
pub fn checked_entries_keep_each_rule()
    ensures { (put : PutEntry) (user : List ℕ) (checked : Checked) → checked_as put user
        ≡ Ok checked → IsChecked put user checked }
{}

//! What holds of every log, in the words of its definitions.
ghost use Rattle.std.specs.Prelude.{◌≡◌, ◌<◌, ◌↔◌, ℕ, List, IsTrue, Some, length, take};
ghost use Rattle.up_entry.specs.declared.records.Rec.{Rec as Record};
ghost use Rattle.up_names.specs.PathNames.{PathName, cut};
ghost use Rattle.up_names.specs.Texts.{UserName};
ghost use Rattle.up_log_tree.specs.Changes.{last_change};
ghost use Rattle.up_log_tree.specs.Fits.{AreFitting, Fits, HasDirectory, HasPlace, IsLog, fits};
ghost use Rattle.up_log_tree.specs.Trees.{node_at, tree_of};
ghost use Rattle.up_log_tree.specs.declared.node.Node.{Node as OneNode};

/// That a record fits is told by its rules, one by one.
pub fn fits_is_told_by_rules()
    ensures { (owner : UserName) (before : List Record) (rec : Record)
        → IsTrue (fits owner before rec) ↔ Fits owner before rec }
{}

/// An item stands at its entry's name, and each item but the root in a directory.
pub fn items_stand_in_directories()
    ensures named { (owner : UserName) (records : List Record) → AreFitting owner records
        → (path : PathName) (node : OneNode)
        → node_at (tree_of records) path ≡ Some node → node.entry.name ≡ path }
    ensures placed { (owner : UserName) (records : List Record) → AreFitting owner records
        → (path : PathName) (node : OneNode)
        → node_at (tree_of records) path ≡ Some node → HasPlace owner (tree_of records) path }
{}

/// Nothing stands below a file or a link: at each shorter prefix of an item's path stands a directory.
pub fn items_stand_below_directories()
    ensures { (owner : UserName) (records : List Record) → AreFitting owner records
        → (path : PathName) (node : OneNode) (n : ℕ)
        → node_at (tree_of records) path ≡ Some node → n < length path.elements
        → HasDirectory (tree_of records) (cut n path) }
{}

/// The sequence of an item is the position of the last change of its path.
pub fn sequences_are_positions()
    ensures { (owner : UserName) (records : List Record) → AreFitting owner records
        → (path : PathName) (node : OneNode)
        → node_at (tree_of records) path ≡ Some node → last_change records path
        ≡ Some node.entry.sequence }
{}

/// Each front of a log is a log.
pub fn fronts_are_logs()
    ensures { (owner : UserName) (records : List Record) (n : ℕ) → IsLog owner records
        → IsLog owner (take n records) }
{}

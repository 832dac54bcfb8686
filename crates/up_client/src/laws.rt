//! What holds of what is got, whatever is asked.
ghost use Rattle.std.specs.Prelude.{ℕ, List, Ok};
ghost use Rattle.up_names.specs.PathNames.{PathName};
ghost use Rattle.up_client.specs.Getting.{get_talk};
ghost use Rattle.up_client.specs.Tables.{AnswersFrom, HasFile, Table};
ghost use Rattle.up_client.specs.Talks.{Held};

/// What is got over a fixed table is the file that the table has there: the joined contents of the blocks of the entry that
/// was looked up last, and the digest of each is its reference.
pub fn what_is_got_is_the_file()
    ensures { (path : PathName) (old new : Table) (bytes : List ℕ)
        → Held AnswersFrom (get_talk path) old (Ok bytes) new → HasFile old.rows path bytes }
{}

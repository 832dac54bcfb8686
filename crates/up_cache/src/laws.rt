//! What holds of whoever is steady with a table.
ghost use Rattle.std.specs.Prelude.{◌≢◌, ℕ, List, Result, Err};
ghost use Rattle.up_cache.specs.Steady.{IsSteady, Plain};
ghost use Rattle.up_client.specs.declared.fault.ClientFault.{ClientFault};
ghost use Rattle.up_client.specs.declared.fault.ClientFault.TheVariants as client_fault;
ghost use Rattle.up_client.specs.Getting.{get_talk};
ghost use Rattle.up_client.specs.Tables.{AnswersFrom, Table};
ghost use Rattle.up_client.specs.Talks.{Held};
ghost use Rattle.up_names.specs.PathNames.{PathName};
ghost use Rattle.up_wire.specs.declared.requests.Request.{Request};
ghost use Rattle.up_wire.specs.declared.replies.Reply.{Reply};

use up_client::Ask;

/// A table is steady with its rows.
pub fn a_table_is_steady()
    ensures { (table : Table) → IsSteady AnswersFrom table.rows table }
{}

/// Over somebody who is steady with a table, what is got is what the table says, unless no answer came or memory was wanting.
pub fn what_is_got_is_plain<A: Ask>()
    ensures { (rows : List (Request × Reply)) (path : PathName) (old new : A)
        (result : Result (List ℕ) ClientFault)
        → IsSteady A.answers rows old → Held A.answers (get_talk path) old result new
        → result ≢ Err client_fault.Failed → result ≢ Err client_fault.OutOfMemory
        → Plain rows (get_talk path) result }
{}

//! Laws of answers. Each function does nothing; its contract is the law.
ghost use Rattle.up_answers.specs.Laws.{AddedRecordsFit, AnswersAgree, ApartChangesKeepAgreement, ChecksAreAlike, HistoriesAgree, ItemsAreSeen, NeedsMayDiffer, NoRightsBelowLinks, NothingBelowLinks, OtherPathsAreHidden, RequestsKeepAgreement, RightsAreMeant, RightsAreSettled, RowsAreSeen, RowsAreShown, SameRecordsKeepAgreement, SnapshotsArePrivate};
ghost use Rattle.up_answers.specs.Settled.{RepliesAreSettled};

/// Nothing stands below a link.
pub fn nothing_stands_below_a_link()
    ensures { NothingBelowLinks }
{}

/// A path below a link has the link's governor, and who has no right on the link has none on the path.
pub fn no_rights_below_a_link()
    ensures { NoRightsBelowLinks }
{}

/// A right in the set of a user's rights is one that the user has.
pub fn rights_are_meant()
    ensures { RightsAreMeant }
{}

/// Where a user sees the same, the tests of links and rights answer alike.
pub fn checks_are_alike()
    ensures { ChecksAreAlike }
{}

/// What a row of Glob shows is seen at its path, or listed in its parent.
pub fn rows_are_seen()
    ensures { RowsAreSeen }
{}

/// In a snapshot tree all but its base user are answered Private.
pub fn snapshots_are_private()
    ensures { SnapshotsArePrivate }
{}

/// At a path of another owner nothing is seen.
pub fn other_paths_are_hidden()
    ensures { OtherPathsAreHidden }
{}

/// Two logs that agree for a user give the user the same answer.
pub fn answers_agree()
    ensures { AnswersAgree }
{}

/// Two logs that agree for a user agree after changes of which the user sees nothing.
pub fn apart_changes_keep_agreement()
    ensures { ApartChangesKeepAgreement }
{}

/// The record that a request adds fits the log.
pub fn added_records_fit()
    ensures { AddedRecordsFit }
{}

/// Two logs that agree for a user agree after the same request of that user.
pub fn requests_keep_agreement()
    ensures { RequestsKeepAgreement }
{}

/// Two logs that agree for a user agree after the same record of an ordinary path, whoever adds it.
pub fn same_records_keep_agreement()
    ensures { SameRecordsKeepAgreement }
{}

/// Two logs that agree for a user at the start give the user the same replies, turn by turn.
pub fn histories_agree()
    ensures { HistoriesAgree }
{}

/// The entry of a row of Glob is seen at its path, or, where the last element that it matches is not literal, among the children of its
/// parent. A pattern that is all literal has one row, whose entry is seen at its path.
pub fn rows_are_shown()
    ensures { RowsAreShown }
{}

/// The items of Watch are those under the watched path of which something is seen.
pub fn items_are_seen()
    ensures { ItemsAreSeen }
{}

/// Two logs can agree for a user, and want other groups to be loaded.
pub fn needs_may_differ()
    ensures { NeedsMayDiffer }
{}

/// Where no group is needed at a path any more, what is loaded besides changes no right on it.
pub fn rights_are_settled()
    ensures { RightsAreSettled }
{}

/// Once no group is needed for a request any more, what is loaded besides changes neither its answer nor the record that it adds.
pub fn replies_are_settled()
    ensures { RepliesAreSettled }
{}

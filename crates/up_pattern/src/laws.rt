//! What the definitions say in other words. Each function does nothing; its contract is the law.
ghost use Rattle.std.specs.Prelude.{◌≡◌, ◌↔◌, List, true, ℕ};
ghost use Rattle.up_pattern.specs.Laws.{LiteralMatchesItsText, SpellingIsOne, TermsAreSpelled};
ghost use Rattle.up_pattern.specs.Matching.{Matches, matches};
ghost use Rattle.up_pattern.specs.declared.terms.Term.{Term};

/// A text matches exactly where it can be cut into pieces, one for each term, that fit the terms in their order.
pub fn matching_is_by_pieces()
    ensures { (terms : List Term) (text : List ℕ)
        → (matches terms text ≡ true) ↔ Matches terms text }
{}

/// A text is an element of these terms exactly where it is written from them, part by part.
pub fn terms_are_spelled()
    ensures { TermsAreSpelled }
{}

/// A text is read in one way.
pub fn spelling_is_one()
    ensures { SpellingIsOne }
{}

/// A literal element matches exactly its text.
pub fn literal_matches_its_text()
    ensures { LiteralMatchesItsText }
{}

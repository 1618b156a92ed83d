//! Laws of the grammar.
ghost use Rattle.std.specs.Prelude.{◌≡◌, List, None, Some};
ghost use Rattle.canonical_query.specs.Canonical.{canonical};
ghost use Rattle.canonical_query.specs.WrongWords.{IsFirstFault};
ghost use Rattle.query.specs.Faults.{first_query_fault, QueryFault};
ghost use Rattle.query.specs.Grammar.{Means};
ghost use Rattle.meaning.specs.Meaning.{CanBeSpelled, Meaning};
ghost use Rattle.query.specs.Words.{Word, words_of};

/// The words of a text have one meaning or none.
#[tactic(auto, using(query::proofs::MeaningOrFault::one_meaning))]
pub fn one_meaning()
    ensures { (words : List Word) (one other : Meaning) →
        Means words one → Means words other → one ≡ other }
{}

/// The words of a text have a meaning, or a first fault, and never both.
#[tactic(auto, using(query::proofs::MeaningOrFault::no_fault, query::proofs::MeaningOrFault::some_meaning))]
pub fn meaning_or_fault()
    ensures never_both { (words : List Word) (meaning : Meaning) →
        Means words meaning → first_query_fault words ≡ None }
    ensures one_of_them { (words : List Word) → first_query_fault words ≡ None →
        (meaning : Meaning) × Means words meaning }
{}

/// The first fault of the words of a text is that of the first word with which no query goes on, as
/// the grammar has it; or none of them is wrong, and they mean no query.
#[tactic(auto, using(crate::proofs::FirstWrongWord::of_grammar, crate::proofs::FirstWrongWord::only_of_grammar))]
pub fn fault_of_first_wrong_word()
    ensures wrong { (words : List Word) (fault : QueryFault) →
        first_query_fault words ≡ Some fault → IsFirstFault words fault }
    ensures first { (words : List Word) (fault : QueryFault) →
        IsFirstFault words fault → first_query_fault words ≡ Some fault }
{}

/// The canonical text of a query is in the grammar, with that query as its meaning.
#[tactic(auto, using(crate::proofs::CanonicalHasMeaning::canonical_means))]
pub fn canonical_text()
    ensures { (query : Meaning) → CanBeSpelled query → Means (words_of (canonical query)) query }
{}

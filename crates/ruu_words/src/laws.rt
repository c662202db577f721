//! What holds of the words. Each function is a law: it does nothing, and its contract is proved.
ghost use Rattle.std.specs.Prelude.{ℕ};
ghost use Rattle.ruu_words.specs.Laws.{WordsReadBack, InfosReadBack, LinksReadBack, FieldsMakeTheWord, PlacesAreApart, RenewedWordsAreFirst, TablesGoOn};

/// A packed word reads back as its fields, and has no other content.
pub fn words_read_back()
    ensures words { WordsReadBack }
    ensures infos { InfosReadBack }
    ensures links { LinksReadBack }
    ensures fields { FieldsMakeTheWord }
{}

/// The places of the table are apart, for any number of stations.
pub fn places_are_apart()
    ensures { (stations : ℕ) → PlacesAreApart stations }
{}

/// After a renewal the words are those of a first table.
pub fn a_new_table_has_first_words()
    ensures { RenewedWordsAreFirst }
{}

/// A table may open with the history that a seat of another table has seen, and a renewal after it,
/// where in that history nobody is live and no stop has retired.
pub fn a_table_goes_on()
    ensures { TablesGoOn }
{}

//! Laws of the language, each as the contract of a function that does nothing.
ghost use Rattle.ut_script.specs.Spellings.{SpellsValues};

/// A word says a value exactly where it is the text of that value.
pub fn values_have_one_spelling()
    ensures { SpellsValues }
{}

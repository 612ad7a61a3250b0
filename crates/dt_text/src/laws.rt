//! Laws of the definitions that the contracts of this crate cite. Each is what its function
//! ensures; the functions do nothing.

ghost use Rattle.dt_text.specs.Numbers.{NumbersHaveOneSpelling};
ghost use Rattle.dt_text.specs.Reading.{WordsAreExact, PrintedTextsReadBack};

/// The words that `words` finds in a line are those that the line is made of, and it finds none
/// exactly where the line is made of no words.
pub fn words_are_exact()
    ensures { WordsAreExact }
{}

/// A text word that was printed is read as the same text.
pub fn printed_texts_read_back()
    ensures { PrintedTextsReadBack }
{}

/// The printed form of a number is the one list of digits without a zero in front that writes it.
pub fn numbers_have_one_spelling()
    ensures { NumbersHaveOneSpelling }
{}

//! Laws over both ways between words and text: the texts that `rv_text` prints assemble to the words.
ghost use Rattle.listing.specs.WordTexts.{WordsAssemble, TextsAreShort, WordsAreAnswered, SayingsAssemble, ListingsAssemble};

/// The texts of 1 to 16,384 words, one a line, with or without a newline at the end, assemble to
/// the file of these words, without data and labels.
pub fn words_assemble()
    ensures assembled { WordsAssemble }

    // So `assemble` takes them, and answers with this file, or with Memory.
    ensures short { TextsAreShort }
    ensures answered { WordsAreAnswered }
{}

/// A text whose lines say these texts assembles to the file of the words, whatever comments, blanks and empty
/// lines stand around them. What `list` prints assembles to the file of the words that it lists.
pub fn listings_assemble()
    ensures sayings { SayingsAssemble }
    ensures listings { ListingsAssemble }
{}

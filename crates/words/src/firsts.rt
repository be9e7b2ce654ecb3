// The first of some words.
ghost use Rattle.std.specs.Prelude.{◌≡◌};
ghost use Rattle.std.specs.Option.{option_map};
ghost use Rattle.words.specs.Readings.{texts, first_word, word_in};

// The first word, and those after it.
pub fn first_word(words: &[String]) -> Option<(&str, &[String])>
    ensures { option_map word_in result ≡ first_word (texts words.now) }
{
    let (word, rest) = words.split_first()?;
    Some((word.as_str(), rest))
}

use item_commands::run_item;
use std::alloc::{AllocError, Global};
use std::process::Abort;
use std::test::Fail;
use words::{CommandError, number_word, read_each};

// The words of a line.
fn words_of(heap: Global, line: &str) -> Result<Vec<String>, AllocError> {
    line.split_whitespace()
        .map(|word| String::from_str(heap, word))
        .try_collect(heap)
}

// The answer to a line of words: the text, or what is wrong. (The crate of the program's cases has this and `check_wrong` for
// another function; one of each for both would be a crate for a few lines.)
pub fn answer(heap: Global, line: &str) -> Result<String, AllocError> {
    let words = words_of(heap, line)?;
    match run_item(heap, words.as_slice()) {
        Ok(text) => Ok(text),
        Err(error) => format!(in heap; "{error}"),
    }
}

// Each line is answered by its text.
pub fn check_answers(rt: &impl Abort, heap: Global, cases: &[(&str, &str)]) -> Result<(), Fail> {
    for (line, text) in cases {
        assert_eq!(rt; answer(heap, line)?.as_str(), *text, "{}", *line);
    }
    Ok(())
}

// Each line is refused for what is wrong with it.
pub fn check_wrong(rt: &impl Abort, heap: Global, cases: &[(&str, &str)]) -> Result<(), Fail> {
    for (line, wrong) in cases {
        let expected = format!(in heap; "{wrong}; run lotaudit alone for its usage")?;
        assert_eq!(rt;
            answer(heap, line)?.as_str(),
            expected.as_str(),
            "{}",
            *line
        );
    }
    Ok(())
}

#[test]
fn names_a_wrong_verb(rt: HostRuntime) -> Result<(), Fail> {
    let verb = "the verb is not known";
    let cases = [("price", verb), ("plan", verb), ("LEAST 0 0 -", verb)];
    check_wrong(&rt, rt.alloc(), &cases)
}

#[test]
fn explains_itself_without_words(rt: HostRuntime) -> Result<(), Fail> {
    let text = answer(rt.alloc(), "")?;
    let usages = [
        "usage: lotaudit least RULE OPENING FORCED ROW...\n",
        "usage: lotaudit weigh RULE OPENING FORCED ROW... plan LOT...\n",
    ];
    for usage in usages {
        assert!(rt; text.as_str().contains(usage), "{}", usage);
    }
    Ok(())
}

#[test]
fn reads_each_word_or_names_the_first_that_does_not(rt: HostRuntime) -> Result<(), Fail> {
    let heap = rt.alloc();
    let cases = [
        ("", Ok(0)),
        ("7", Ok(7)),
        ("1 20 255", Ok(276)),
        ("x", Err(CommandError::Misused(0))),
        ("1 256 x", Err(CommandError::Misused(1))),
    ];
    for (line, expected) in cases {
        let words = words_of(heap, line)?;
        let read = read_each(
            heap,
            words.as_slice(),
            |word| number_word::<u8>(word),
            |place| place,
        );
        let sum = read.map(|numbers| numbers
            .iter()
            .fold(0u32, |sum, n| sum.saturating_add(*n as u32)));
        assert_eq!(rt; sum, expected, "{}", line);
    }
    Ok(())
}

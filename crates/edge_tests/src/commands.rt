use process_runner::split_command;
use scm_text::{Items, Text, WText};
use std::alloc::Global;
use std::test::Fail;

fn units(alloc: Global, text: &str) -> Result<Vec<u16>, Fail> {
    Ok(text.encode_utf16().collect(alloc)?)
}

/// A list of one text.
fn one(alloc: Global, text: &str) -> Result<Items<WText>, Fail> {
    let text = WText::from_units(alloc, units(alloc, text)?.as_slice())?;
    let mut list = Items::new(alloc);
    list.push(text).ok().ok_or("memory")?;
    Ok(list)
}

/// Words in brackets.
fn bracketed(alloc: Global, words: &[Text]) -> Result<String, Fail> {
    let mut all = String::new(alloc);
    for word in words {
        all.push_str("[")?;
        all.push_str(word.as_str())?;
        all.push_str("]")?;
    }
    Ok(all)
}

/// The words of a line and the words after it, in brackets.
fn split(alloc: Global, line: &[u16], more: &Items<WText>) -> Result<String, Fail> {
    let Ok(words) = split_command(alloc, line, more) else {
        return Err("memory".into());
    };
    let all = bracketed(alloc, words.as_slice());
    drop(words);
    all
}

/// The words of a line and one word more, in brackets.
fn words_in(alloc: Global, line: &str, more: &str) -> Result<String, Fail> {
    let more = one(alloc, more)?;
    let all = match units(alloc, line) {
        Ok(line) => split(alloc, line.as_slice(), &more),
        Err(fault) => Err(fault),
    };
    drop(more);
    all
}

#[test]
fn a_command_line_is_split_at_spaces_outside_of_quotes(rt: HostRuntime) -> Result<(), Fail> {
    let rows = [
        ("\"/a b\" -x \"c d\"e", "f", "[/a b][-x][c de][f]"),
        ("/bin/true", "", "[/bin/true][]"),
        ("  a   b ", "c d", "[a][b][c d]"),
        ("a \"\" b", "f", "[a][][b][f]"),
        ("a \"b c", "f", "[a][b c][f]"),
        ("a\"b c\"d\"e\"", "f", "[ab cde][f]"),
        ("\u{e9} \u{1f600}", "f", "[\u{e9}][\u{1f600}][f]"),
        ("", "f", "[f]"),
    ];
    for (line, more, want) in rows {
        assert_eq!(rt;
            words_in(rt.alloc(), line, more)?.as_str(),
            want,
            "at {line}"
        );
    }
    Ok(())
}

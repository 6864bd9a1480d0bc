//! Rows of JSON texts, and what each nest makes of them: what no clause says, to be held beside what serde answers.
#![tactic(auto)]

mod answer;
mod cases;
mod choices;
mod containers;
mod hashed;
mod keys;
mod many;
mod maps;
mod names;
mod pairs;
mod person;
mod priorities;
mod priority;
mod ranges;
mod records;
mod stored;
mod told;
mod tuples;

use answer::Answer;
use std::alloc::Global;
use std::io;

/// Reads lines. One that begins with a tab has a JSON text behind it, and is written again with what the nest makes of the
/// text; any other has the name of the nest of the rows below it, and is written again with what the check says of the nest.
fn main(rt: HostRuntime) -> io::Result<()> {
    let alloc = rt.alloc();
    let mut nest = String::new(alloc);
    for line in rt.lines(alloc) {
        let line = line?;
        match line.as_str().strip_prefix('\t') {
            Some(text) => {
                let answer = asked(alloc, nest.as_str(), Some(text));
                println!(rt; "\t{text}\t{answer}")?;
            }
            None => {
                nest = line;
                let answer = asked(alloc, nest.as_str(), None);
                println!(rt; "{nest}: {answer}")?;
            }
        }
    }
    Ok(())
}

/// What the nest of that name makes of the text, or without a text what the check says of it.
fn asked(alloc: Global, nest: &str, text: Option<&str>) -> Answer {
    if let Some(answer) = containers::asked(alloc, nest, text) {
        answer
    } else if let Some(answer) = maps::asked(alloc, nest, text) {
        answer
    } else if let Some(answer) = keys::asked(alloc, nest, text) {
        answer
    } else if let Some(answer) = choices::asked(alloc, nest, text) {
        answer
    } else if let Some(answer) = records::asked(alloc, nest, text) {
        answer
    } else if let Some(answer) = tuples::asked(alloc, nest, text) {
        answer
    } else if let Some(answer) = hashed::asked(alloc, nest, text) {
        answer
    } else if let Some(answer) = cases::asked(alloc, nest, text) {
        answer
    } else if let Some(answer) = priorities::asked(alloc, nest, text) {
        answer
    } else {
        asked_further(alloc, nest, text)
    }
}

/// The same of ranges, pairs and further collections of one or many.
fn asked_further(alloc: Global, nest: &str, text: Option<&str>) -> Answer {
    if let Some(answer) = ranges::asked(alloc, nest, text) {
        answer
    } else if let Some(answer) = pairs::asked(alloc, nest, text) {
        answer
    } else if let Some(answer) = many::asked(alloc, nest, text) {
        answer
    } else {
        Answer::NoSuchNest
    }
}

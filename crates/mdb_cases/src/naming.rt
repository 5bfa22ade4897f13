//! Texts that stand for longer ones in a line of cases.

use crate::page::Page;
use crate::words::{number, parted};
use std::alloc::Global;

// A text by its name.
#[derive(Drop)]
struct Named {
    name: String,
    text: String,
}

/// The texts that were named so far. Of two with one name the last one counts.
#[derive(Drop)]
pub struct Names {
    list: Vec<Named>,
}

impl Names {
    /// No text has a name.
    pub fn new(alloc: Global) -> Names {
        Names {
            list: Vec::new(alloc),
        }
    }

    // `NAME TEXT`: the name stands for the text from now on, which may hold names itself.
    fn keep(&mut self, page: &mut Page, words: &str) {
        let (name, text) = parted(words);
        let named = Named {
            name: page.string(name),
            text: self.spelled_out(page, text),
        };
        page.keep(&mut self.list, named);
    }

    fn text(&self, name: &str) -> &str {
        let mut text = "malformed";
        for named in &self.list {
            if named.name.as_str() == name {
                text = named.text.as_str();
            }
        }
        text
    }

    fn add_word(&self, page: &mut Page, text: &mut String, word: &str) {
        match word.split_once('*') {
            Some((times, part)) => add_often(page, text, number(times), part),
            None => page.add(text, self.text(word)),
        }
    }

    // The line with its text in the place of each `<NAME>`, and the part so many times in the place of each `<3*PART>`.
    fn spelled_out(&self, page: &mut Page, line: &str) -> String {
        let (first, _) = line.split_once('<').unwrap_or((line, ""));
        let mut text = page.string(first);
        for part in line.split('<').skip(1) {
            let (word, rest) = part.split_once('>').unwrap_or((part, "malformed"));
            self.add_word(page, &mut text, word);
            page.add(&mut text, rest);
        }
        text
    }

    /// The line with its text in the place of each `<NAME>`. In the place of `<3*,h#:1>` stands `,h1:1,h2:1,h3:1`: the part so many times, with
    /// the number of the time in the place of each `#`. Of a line `given NAME TEXT`, whose text is kept, nothing is left.
    pub fn read(&mut self, page: &mut Page, line: &str) -> String {
        match line.strip_prefix("given ") {
            Some(words) => {
                self.keep(page, words);
                page.string("")
            }
            None => self.spelled_out(page, line),
        }
    }
}

fn add_numbered(page: &mut Page, text: &mut String, number: u64, part: &str) {
    let (first, _) = part.split_once('#').unwrap_or((part, ""));
    page.add(text, first);
    for rest in part.split('#').skip(1) {
        page.add_number(text, number);
        page.add(text, rest);
    }
}

fn add_often(page: &mut Page, text: &mut String, times: u64, part: &str) {
    for number in 0..times {
        add_numbered(page, text, number.saturating_add(1), part);
    }
}

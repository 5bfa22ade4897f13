//! Where a case is answered.

use mdb_base::{AddressError, Items, ServerAddress, Text};
use std::alloc::Global;
use std::fmt;

/// What a case is answered so far, and whether there was memory for all of it. No method fails: where memory is short
/// the page is no longer whole, and its text does not count.
#[derive(Drop)]
pub struct Page {
    /// Where what is made takes its memory.
    pub alloc: Global,
    /// The answer.
    pub told: String,
    /// There was memory for all of it.
    pub is_whole: bool,
}

impl Page {
    /// An empty page.
    pub fn new(alloc: Global) -> Page {
        Page {
            alloc,
            told: String::new(alloc),
            is_whole: true,
        }
    }

    /// There was no memory for something.
    pub fn fail(&mut self) {
        self.is_whole = false;
    }

    /// Puts the words behind what is told.
    pub fn put(&mut self, words: &str) {
        if self.told.push_str(words).is_err() {
            self.fail();
        }
    }

    /// Puts the words where it holds.
    pub fn put_if(&mut self, holds: bool, words: &str) {
        if holds {
            self.put(words);
        }
    }

    /// Puts `yes` or `no`.
    pub fn answer(&mut self, yes: bool) {
        self.put(if yes { "yes" } else { "no" });
    }

    /// Puts the value as `{}` prints it.
    pub fn show<D: fmt::Display>(&mut self, value: &D) {
        if write!(self.told, "{value}").is_err() {
            self.fail();
        }
    }

    /// Puts the value as `{:?}` prints it.
    pub fn debug<D: fmt::Debug>(&mut self, value: &D) {
        if write!(self.told, "{value:?}").is_err() {
            self.fail();
        }
    }

    /// The addresses with a blank before each.
    pub fn show_all(&mut self, addresses: &[ServerAddress]) {
        for address in addresses {
            self.put(" ");
            self.show(address);
        }
    }

    /// Keeps an item at the end of the list.
    pub fn keep<T: Drop>(&mut self, list: &mut Vec<T>, item: T) {
        if list.push(item).is_err() {
            self.fail();
        }
    }

    /// The words as a string.
    pub fn string(&mut self, words: &str) -> String {
        match String::from_str(self.alloc, words) {
            Ok(string) => string,
            Err(_) => {
                self.fail();
                String::new(self.alloc)
            }
        }
    }

    /// Appends the words to the text.
    pub fn add(&mut self, text: &mut String, words: &str) {
        if text.push_str(words).is_err() {
            self.fail();
        }
    }

    /// Appends the number to the text.
    pub fn add_number(&mut self, text: &mut String, number: u64) {
        if write!(text, "{number}").is_err() {
            self.fail();
        }
    }

    /// The words as a text.
    pub fn text(&mut self, words: &str) -> Text {
        Text::new(self.string(words))
    }

    /// The bytes of the words.
    pub fn bytes(&mut self, words: &str) -> Vec<u8> {
        match Vec::from_slice(self.alloc, words.as_bytes()) {
            Ok(bytes) => bytes,
            Err(_) => {
                self.fail();
                Vec::new(self.alloc)
            }
        }
    }

    /// Texts with commas between; none where there is no word.
    pub fn texts(&mut self, words: &str) -> Items<Text> {
        let mut list = Vec::new(self.alloc);
        for word in words.split(',') {
            if !word.is_empty() {
                let text = self.text(word);
                self.keep(&mut list, text);
            }
        }
        Items::new(list)
    }

    /// Numbers with commas between; none where there is no word.
    pub fn numbers(&mut self, words: &str) -> Vec<u64> {
        let mut list = Vec::new(self.alloc);
        for word in words.split(',') {
            if let Ok(number) = word.parse::<u64>() {
                self.keep(&mut list, number);
            }
        }
        list
    }

    /// The address; none, and `malformed` in the answer, where the words are none.
    pub fn address(&mut self, words: &str) -> Option<ServerAddress> {
        match ServerAddress::parse(self.alloc, words) {
            Ok(address) => return Some(address),
            Err(AddressError::BadAddress) => self.put("malformed"),
            Err(AddressError::OutOfMemory) => self.fail(),
        }
        None
    }

    /// A copy of the address; none where it cannot be copied.
    pub fn same_address(&mut self, address: &ServerAddress) -> Option<ServerAddress> {
        match address.clone() {
            Ok(address) => Some(address),
            Err(_) => {
                self.fail();
                None
            }
        }
    }

    /// Addresses with commas between; none where there is no word. What is no address is left out.
    pub fn addresses(&mut self, words: &str) -> Vec<ServerAddress> {
        let mut list = Vec::new(self.alloc);
        for word in words.split(',') {
            if !word.is_empty() {
                if let Some(address) = self.address(word) {
                    self.keep(&mut list, address);
                }
            }
        }
        list
    }
}

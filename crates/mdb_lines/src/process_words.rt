//! The words of a command line.

use std::alloc::AllocError;
use std::env;
use std::io::ErrorKind;
use std::rt::Env;

/// The words of the command line behind the program's name; where one of them is no text, a word that is no command.
pub fn command_words<R: Env + AllocGlobal>(rt: &R) -> Result<Vec<String>, AllocError> {
    let mut words = Vec::new(rt.alloc());
    match env::args(rt) {
        Ok(args) => {
            for word in args.skip(1) {
                words.push(word)?;
            }
        }
        Err(e) => {
            if e.kind() == ErrorKind::OutOfMemory {
                return Err(AllocError);
            }
            words.push(String::from_str(rt.alloc(), "?")?)?;
        }
    }
    Ok(words)
}

//! The words of the command line.

ghost use Rattle.std.specs.Prelude.{◌≡◌, ◌<◌, ◌^◌, ◌∷◌, [], ℕ, IfSome, Some, decimal, map};
ghost use Rattle.mdb_generator.specs.Words.{Says};

/// What the words of a command line ask for.
#[derive(Clone, Copy, Debug, PartialEq, Eq)]
pub enum ToolCommand {
    /// No words: the script on standard input.
    Script,
    /// `make n`: the generated script of 1 to 2,000 rounds, and its summary.
    Make(u32),
    /// `share k`: the script on standard input, run by 1 to 8 parts.
    Share(u32),
    /// All else.
    Usage,
}

// The number that a word spells, without a sign and without a leading zero.
fn number(word: &str) -> Option<u32>
    ensures spelled { IfSome result (λ n. word.now ≡ decimal n) }
    ensures all { (n : ℕ) → n < 2 ^ 32 → word.now ≡ decimal n → result ≡ Some n }
{
    match word.parse::<u32>() {
        Err(_) => None,
        Ok(number) => {
            let mut buffer = itoa::Buffer::new();
            if buffer.format(number) == word {
                Some(number)
            } else {
                None
            }
        }
    }
}

// The command of a word and a number.
fn command(word: &str, number: u32) -> ToolCommand
    ensures { Says (word.now ∷ decimal number ∷ []) result }
{
    if word == "make" {
        if number < 1 || 2000 < number {
            ToolCommand::Usage
        } else {
            ToolCommand::Make(number)
        }
    } else if word == "share" {
        if number < 1 || 8 < number {
            ToolCommand::Usage
        } else {
            ToolCommand::Share(number)
        }
    } else {
        ToolCommand::Usage
    }
}

/// Reads the words of a command line. `make` takes a number of 1 to 2,000, `share` one of 1 to 8, both without a sign
/// and without a leading zero; all else is a usage.
pub fn read_words(words: &[&str]) -> ToolCommand
    ensures { Says (map (λ w. w.now) words.now) result }
{
    match words {
        [] => ToolCommand::Script,
        [word, digits] => match number(digits) {
            Some(number) => command(word, number),
            None => ToolCommand::Usage,
        },
        _ => ToolCommand::Usage,
    }
}

//! What is wrong with the words of the command line. `command_words` alone decides whether they are
//! taken; this only looks for a reason to tell, and asks it about one word at a time.
use command_words::command_of;
use std::alloc::Global;
use std::fmt;

/// The most stories of a command.
const MOST_STORIES: usize = 64;

/// Why words aren't taken, as far as that can be told.
#[derive(Drop)]
pub enum Misuse<'w> {
    NotText,
    NoCommand,
    UnknownCommand(&'w str),
    UnknownOption(&'w str),
    /// The argument of that name isn't given.
    Lacks(&'static str),
    /// The option of that name has no number.
    LacksNumber(&'static str),
    TooMany(&'w str),
    TooManyStories,
    /// A folder is to be packed into the one of that name, which it is itself.
    SameFolder(&'w str),
    /// The argument of that name isn't in this range.
    NoNumber(&'static str, &'static str, &'w str),
    Other,
}

impl<'w> fmt::Display for Misuse<'w> {
    fn fmt<W: fmt::Write>(&self, f: &mut fmt::Formatter<W>) -> fmt::Result {
        match self {
            Misuse::NotText => f.write_str("a word isn't text in UTF-8"),
            Misuse::NoCommand => f.write_str("no command is given"),
            Misuse::UnknownCommand(word) => write!(f, "{word:?} is no command"),
            Misuse::UnknownOption(word) => write!(f, "{word:?} is no option here"),
            Misuse::Lacks(name) => write!(f, "no {name} is given"),
            Misuse::LacksNumber(name) => write!(f, "no number is given behind {name}"),
            Misuse::TooMany(word) => write!(f, "{word:?} is a word too many"),
            Misuse::TooManyStories => write!(f, "more than {MOST_STORIES} stories are given"),
            Misuse::SameFolder(word) => write!(f, "OLD and NEW are both {word:?}"),
            Misuse::NoNumber(name, range, word) => {
                write!(f, "{name} is a number from {range}, and {word:?} isn't")
            }
            Misuse::Other => f.write_str("an option is given twice, or in another place"),
        }
    }
}

/// The arguments that a command wants, in their order. `STORY` may be given more often.
fn arguments_of(command: &str) -> Option<&'static [&'static str]> {
    match command {
        "run" | "check" => Some(&["FILE"]),
        "init" => Some(&["DIR"]),
        "pipe" | "replay" => Some(&["DIR", "STORY"]),
        "serve" => Some(&["DIR", "PORT", "WORKERS", "STORY"]),
        "pack" => Some(&["OLD", "NEW"]),
        "drill" => Some(&["N"]),
        _ => None,
    }
}

/// Whether these words are taken, as far as memory lasts.
fn are_taken(alloc: Global, words: &[&str]) -> bool {
    let mut given = Vec::new(alloc);
    for word in words {
        let Ok(word) = String::from_str(alloc, word) else {
            return true;
        };
        if given.push(word).is_err() {
            return true;
        }
    }
    matches!(command_of(alloc, &given), Ok(Some(_)) | Err(_))
}

/// What is wrong with a word that is given for an argument.
fn misuse_of_argument<'w>(alloc: Global, name: &'static str, word: &'w str) -> Option<Misuse<'w>> {
    let (is_taken, range) = match name {
        "PORT" => (
            are_taken(alloc, &["serve", "d", word, "1", "s"]),
            "0 to 65535",
        ),
        "WORKERS" => (are_taken(alloc, &["serve", "d", "0", word, "s"]), "1 to 16"),
        "N" => (
            are_taken(alloc, &["drill", word]),
            "0 to 18446744073709551615",
        ),
        "--budget" => (
            are_taken(alloc, &["run", "f", "--budget", word]),
            "1 to 1000000000000",
        ),
        "--links" => (
            are_taken(alloc, &["serve", "d", "0", "1", "s", "--links", word]),
            "1 to 4294967295",
        ),
        _ => (true, ""),
    };
    if is_taken {
        return None;
    }
    Some(Misuse::NoNumber(name, range, word))
}

/// The option of a command that a word names.
fn option_of(command: &str, word: &str) -> Option<&'static str> {
    match (word, command) {
        ("--budget", "run" | "pipe" | "serve") => Some("--budget"),
        ("--links", "serve") => Some("--links"),
        _ => None,
    }
}

/// What is wrong with words that aren't taken.
pub fn misuse_of<'w>(alloc: Global, words: &'w [String]) -> Misuse<'w> {
    let Some((command, rest)) = words.split_first() else {
        return Misuse::NoCommand;
    };
    let Some(wanted) = arguments_of(command) else {
        return Misuse::UnknownCommand(command);
    };
    let mut given = 0usize;
    let mut option = None;
    for word in rest {
        let word = word.as_str();
        let name = if let Some(name) = option.take() {
            name
        } else if word.starts_with("--") {
            option = option_of(command, word);
            match option {
                Some(_) => continue,
                None => return Misuse::UnknownOption(word),
            }
        } else {
            let place = given;
            given = given.saturating_add(1);
            match (wanted.get(place), wanted.last()) {
                (Some(name), _) => *name,
                (None, Some(&"STORY")) => "STORY",
                (None, _) => return Misuse::TooMany(word),
            }
        };
        if let Some(misuse) = misuse_of_argument(alloc, name, word) {
            return misuse;
        }
    }
    match (option, wanted.get(given)) {
        (Some(name), _) => Misuse::LacksNumber(name),
        (None, Some(name)) => Misuse::Lacks(name),
        (None, None) if given > MOST_STORIES => Misuse::TooManyStories,
        (None, None) => match (command.as_str(), rest) {
            ("pack", [old, new]) if old == new => Misuse::SameFolder(new),
            _ => Misuse::Other,
        },
    }
}

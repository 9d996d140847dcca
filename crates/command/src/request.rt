// What the words after a program's name ask for.
ghost use Rattle.std.specs.Prelude.{◌≡◌, drop, map};
ghost use Rattle.std.specs.Option.{option_map};
ghost use Rattle.std.specs.String.{string_bytes};
ghost use Rattle.command.specs.Requests.{asked, begins_as_argument, input_file, request_of, word_of};

/// What a program is asked to do.
#[derive(Clone, Copy)]
pub enum Request<'a> {
    /// `--help`: the usage and what is read and written.
    Help,
    /// `--version`: the versions of the repository and of the kit.
    Version,
    /// Its answer to some input.
    Answer(Options<'a>),
}

/// What is given for an answer.
#[derive(Clone, Copy)]
pub struct Options<'a> {
    /// The input file; without one it is standard input.
    pub file: Option<&'a str>,
    /// `--strict`.
    pub strict: bool,
}

/// What a program takes beside `--help` and `--version`.
#[derive(Clone, Copy)]
pub struct Takes {
    /// An input file.
    pub file: bool,
    /// `--strict`.
    pub strict: bool,
}

/// Why words ask for nothing.
#[derive(Clone, Copy)]
pub enum Misuse<'a> {
    UnknownArgument(&'a str),
    SecondFile(&'a str),
}

/// What one word is.
#[derive(Clone, Copy)]
enum Word {
    Help,
    Version,
    Strict,
    Unknown,
    File,
}

fn word_of(word: &str, takes: Takes) -> Word
    ensures { result ≡ word_of takes word.now }
{
    match word {
        "--help" => Word::Help,
        "--version" => Word::Version,
        "--strict" if takes.strict => Word::Strict,
        _ if begins_as_argument(word.as_bytes()) => Word::Unknown,
        _ if takes.file => Word::File,
        _ => Word::Unknown,
    }
}

// More than a minus sign, and one at its front.
fn begins_as_argument(word: &[u8]) -> bool
    ensures { result ≡ begins_as_argument word.now }
{
    matches!(word, [b'-', _, ..])
}

// The file to be read; `-` is standard input.
fn input_file(named: Option<&str>) -> Option<&str>
    ensures { option_map (λ f. f.now) result ≡ input_file (option_map (λ f. f.now) named.entry) }
{
    match named {
        Some("-") | None => None,
        Some(path) => Some(path),
    }
}

/// The words after the program's name, which is the first of all.
pub(crate) fn after_name(words: &[String]) -> &[String]
    ensures { result.now ≡ drop 1 words.now }
{
    match words {
        [_, rest @ ..] => rest,
        [] => words,
    }
}

/// What the words ask for, from left to right: `--help` and `--version` end the reading, and so does the first word
/// that is none of the program's.
pub fn request_of(words: &[String], takes: Takes) -> Result<Request<'_>, Misuse<'_>>
    ensures { asked result ≡ request_of takes (map string_bytes words.now) }
{
    let mut options = Options {
        file: None,
        strict: false,
    };
    for word in words {
        let word = word.as_str();
        match word_of(word, takes) {
            Word::Help => return Ok(Request::Help),
            Word::Version => return Ok(Request::Version),
            Word::Unknown => return Err(Misuse::UnknownArgument(word)),
            Word::File if options.file.is_some() => return Err(Misuse::SecondFile(word)),
            Word::File => options.file = Some(word),
            Word::Strict => options.strict = true,
        }
    }
    Ok(Request::Answer(Options {
        file: input_file(options.file),
        strict: options.strict,
    }))
}

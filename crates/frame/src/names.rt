//! Words of the command line that name files, as they are opened.
ghost use Rattle.std.specs.Prelude.{◌≡◌, option_map};
ghost use Rattle.frame.specs.Names.{file_named};

/// The word that represents standard input.
const INPUT_WORD: &str = "-";

/// The name of the file that a word names; none of standard input, which `-` represents.
pub fn file_of<'a>(word: &'a str) -> Option<&'a str>
    ensures { option_map (λ n. n.now) result ≡ file_named word.entry.now }
{
    if word == INPUT_WORD { None } else { Some(word) }
}

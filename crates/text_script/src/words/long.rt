//! Words of the form `--name` and `--name=text`.
ghost use Rattle.std.specs.Prelude.{◌≡◌, option_map};
ghost use Rattle.clap.specs.Lexer.{long_of, name_and_value, strip_byte};

// The text behind a hyphen that begins it.
fn after_hyphen(word: &str) -> Option<&str>
    ensures { option_map (λ t. t.now) result ≡ strip_byte 45 word.now }
{
    word.strip_prefix('-')
}

// The text before the first `=`, and the text behind it.
fn name_and_text(long: &str) -> (&str, Option<&str>)
    ensures { (result.0.now, option_map (λ t. t.now) result.1) ≡ name_and_value long.now }
{
    match long.split_once('=') {
        Some((name, text)) => (name, Some(text)),
        None => (long, None),
    }
}

// The name of a long option, and the text behind its `=` if there is one.
pub(crate) fn long_option(word: &str) -> Option<(&str, Option<&str>)>
    ensures { option_map (λ p. (p.0.now, option_map (λ t. t.now) p.1)) result ≡ long_of word.now }
{
    let long = after_hyphen(after_hyphen(word)?)?;
    if long.is_empty() {
        return None;
    }
    Some(name_and_text(long))
}

// The options that words give.
ghost use Rattle.std.specs.Prelude.{◌≡◌, ◌<◌, MatchOption, IfSome, map, length, string_bytes, [], ◌∷◌, option_map, true, false};
ghost use Rattle.std.specs.Option.{option_to_list};
ghost use Rattle.command_words.specs.Options.{cut, given, is_whole, options_of, given_pair, suits, values_of};

/// An option at the front of some words, and the words behind it.
#[derive(Clone, Copy)]
pub struct FrontOption<'a> {
    pub name: &'a str,
    pub value: &'a str,
    pub rest: &'a [String],
}

fn parts_of(word: &str) -> Option<(&str, &str)>
    ensures { MatchOption result (is_whole word.now ≡ false)
        (λ p. (is_whole word.now ≡ true) × (cut word.now ≡ given_pair p.0.now p.1.now)) }
{
    word.split_once('=')
}

/// The first option of some words.
pub fn front_option(words: &[String]) -> Option<FrontOption<'_>>
    ensures options { let options = options_of (map string_bytes words.now) in
        MatchOption result (options ≡ [])
        (λ o. options ≡ given o ∷ options_of (map string_bytes o.rest.now)) }
    ensures shorter { IfSome result (λ o. length o.rest.now < length words.now) }
{
    let (word, rest) = words.split_first()?;
    let word = word.as_str();
    if let Some((name, value)) = parts_of(word) {
        return Some(FrontOption { name, value, rest });
    }
    match rest.split_first() {
        None => Some(FrontOption {
            name: word,
            value: "",
            rest,
        }),
        Some((value, rest)) => Some(FrontOption {
            name: word,
            value: value.as_str(),
            rest,
        }),
    }
}

/// The value of an option that stands once at most, or `None` where it stands twice.
pub fn value_of<'a>(words: &'a [String], name: &str) -> Option<Option<&'a str>>
    ensures { let values = values_of name.now (options_of (map string_bytes words.now)) in
        MatchOption result (suits false values ≡ false)
        (λ v. values ≡ option_to_list (option_map (λ s. s.now) v)) }
{
    let mut found = None;
    let mut rest = words;
    'options: while let Some(option) = front_option(rest) {
        if option.name == name {
            if found.is_some() {
                return None;
            }
            found = Some(option.value);
        }
        rest = option.rest;
    }
    Some(found)
}

/// The value of an option that stands once, and `None` where it doesn't.
pub fn needed_value<'a>(words: &'a [String], name: &str) -> Option<&'a str>
    ensures { let values = values_of name.now (options_of (map string_bytes words.now)) in
        MatchOption result (suits true values ≡ false) (λ v. values ≡ v.now ∷ []) }
{
    value_of(words, name)?
}

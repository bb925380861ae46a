ghost use Rattle.std.specs.Prelude.{◌≡◌, ◌≢◌, ◌<◌, IfSome, IfNone, IfOk, IfErr, IsSome, map, length, option_map};
ghost use Rattle.std.specs.Prelude.{slice_get};
ghost use Rattle.std.specs.List.{All, AllByRecursion};
ghost use Rattle.std.specs.String.{string_bytes};
ghost use Rattle.command_words.specs.Texts.{Name, name_word, IsName, IsNameWord, IsFirstOther};

use crate::texts::is_path;

/// A name, `PATH:NAME`, of the package of that path. It is divided at the first `:`.
#[derive(Debug, Drop, Clone, Copy, PartialEq, Eq)]
pub struct NameWord<'a> {
    /// The whole word, by which messages name the name.
    pub label: &'a str,
    pub path: &'a str,
    pub name: &'a str,
}

impl<'a> NameWord<'a> {
    ghost use Rattle.command_words.specs.Forms.{name_of};

    /// The name that a word names, where it names one.
    pub fn of(word: &'a str) -> Option<NameWord<'a>>
        ensures spelled { IfSome result (λ name. word.now ≡ name_word (name_of name)) }
        ensures sound { IfSome result (λ name. IsName (name_of name)) }
        ensures label { IfSome result (λ name. name.label.now ≡ word.now) }
        ensures none { IfNone result ((name : Name) → IsName name → word.now ≢ name_word name) }
    {
        let (path, name) = word.split_once(':')?;
        if is_path(path) && !name.is_empty() {
            Some(NameWord {
                label: word,
                path,
                name,
            })
        } else {
            None
        }
    }
}

/// Names, `PATH:NAME` each, as the words of a command line that name them.
#[derive(Debug, Drop, Clone, Copy, PartialEq, Eq)]
pub struct NameWords<'a> {
    words: &'a [String],
    ghost are_names: { All IsNameWord (map string_bytes words.now) },
}

impl<'a> NameWords<'a> {
    ghost use Rattle.command_words.specs.Forms.{name_of, names_of};

    /// The names that words name, where each names one, or the place of the first that names none.
    pub fn of(words: &'a [String]) -> Result<NameWords<'a>, usize>
        ensures spelled { IfOk result (λ names. map string_bytes words.now ≡ map name_word (names_of names)) }
        ensures sound { IfOk result (λ names. AllByRecursion IsName (names_of names)) }
        ensures other { IfErr result (IsFirstOther (map string_bytes words.now)) }
    {
        for (k, word) in words.iter().enumerate() {
            if NameWord::of(word.as_str()).is_none() {
                return Err(k);
            }
        }
        Ok(NameWords { words })
    }

    /// How many names there are.
    pub fn len(&self) -> usize
        ensures { result ≡ length (names_of self.now) }
    {
        self.words.len()
    }

    /// The name at a place, counted from 0.
    pub fn get(&self, k: usize) -> Option<NameWord<'a>>
        ensures exact { option_map name_of result ≡ slice_get (names_of self.now) k }
        ensures label { IfSome result (λ name. name.label.now ≡ name_word (name_of name)) }
        ensures sound { IfSome result (λ name. IsName (name_of name)) }
        ensures there { k < length (names_of self.now) → IsSome result }
    {
        let word = self.words.get(k)?;
        NameWord::of(word.as_str())
    }
}

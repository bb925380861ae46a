ghost use Rattle.std.specs.Prelude.{◌≡◌, ◌≢◌, ◌<◌, ◌++◌, IfSome, IfNone, IsSome, List, map, length, option_map};
ghost use Rattle.std.specs.Prelude.{◌∷◌, slice_get};
ghost use Rattle.std.specs.List.{All, AllByRecursion};
ghost use Rattle.std.specs.String.{string_bytes};
ghost use Rattle.command_words.specs.Texts.{Word, Source, source_word, IsSource, IsSourceWord, AreLeading};

use crate::texts::{is_file, is_path};

/// A source, `f:PATH=FILE`: a full file, and the path of the package that it holds.
#[derive(Debug, Drop, Clone, Copy, PartialEq, Eq)]
pub struct SourceWord<'a> {
    /// The whole word, by which messages name the source.
    pub label: &'a str,
    pub path: &'a str,
    pub file: &'a str,
}

impl<'a> SourceWord<'a> {
    ghost use Rattle.command_words.specs.Forms.{source_of};

    /// The source that a word names, where it names one.
    pub fn of(word: &'a str) -> Option<SourceWord<'a>>
        ensures spelled { IfSome result (λ source. word.now ≡ source_word (source_of source)) }
        ensures sound { IfSome result (λ source. IsSource (source_of source)) }
        ensures label { IfSome result (λ source. source.label.now ≡ word.now) }
        ensures none { IfNone result ((source : Source) → IsSource source → word.now ≢ source_word source) }
    {
        let rest = word.strip_prefix("f:")?;
        let (path, file) = rest.split_once('=')?;
        if is_path(path) && is_file(file) {
            Some(SourceWord {
                label: word,
                path,
                file,
            })
        } else {
            None
        }
    }
}

/// Sources, `f:PATH=FILE` each, as the words of a command line that name them.
#[derive(Debug, Drop, Clone, Copy, PartialEq, Eq)]
pub struct SourceWords<'a> {
    words: &'a [String],
    ghost are_sources: { All IsSourceWord (map string_bytes words.now) },
}

impl<'a> SourceWords<'a> {
    ghost use Rattle.command_words.specs.Forms.{source_of, sources_of};

    /// The sources that the first of some words name, up to the first word that names none, and the words from that
    /// one on.
    pub fn leading(words: &'a [String]) -> (SourceWords<'a>, &'a [String])
        ensures parted { map string_bytes words.now
            ≡ map source_word (sources_of result.0) ++ map string_bytes result.1.now }
        ensures sound { AllByRecursion IsSource (sources_of result.0) }
        ensures other { (word : Word) (more : List Word) → map string_bytes result.1.now ≡ word ∷ more
            → (source : Source) → IsSource source → word ≢ source_word source }
    {
        let (words, rest) = words.split_at(leading_count(words));
        (SourceWords { words }, rest)
    }

    /// How many sources there are.
    pub fn len(&self) -> usize
        ensures { result ≡ length (sources_of self.now) }
    {
        self.words.len()
    }

    /// The source at a place, counted from 0.
    pub fn get(&self, k: usize) -> Option<SourceWord<'a>>
        ensures exact { option_map source_of result ≡ slice_get (sources_of self.now) k }
        ensures label { IfSome result (λ source. source.label.now ≡ source_word (source_of source)) }
        ensures sound { IfSome result (λ source. IsSource (source_of source)) }
        ensures there { k < length (sources_of self.now) → IsSome result }
    {
        let word = self.words.get(k)?;
        SourceWord::of(word.as_str())
    }
}

/// How many words name sources, up to the first that names none.
fn leading_count(words: &[String]) -> usize
    ensures { AreLeading (map string_bytes words.now) result }
{
    for (k, word) in words.iter().enumerate() {
        if SourceWord::of(word.as_str()).is_none() {
            return k;
        }
    }
    words.len()
}

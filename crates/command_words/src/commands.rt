ghost use Rattle.std.specs.Prelude.{◌≡◌, ◌∷◌, codes, map, IfOk, IfErr};
ghost use Rattle.std.specs.String.{string_bytes};
ghost use Rattle.command_words.specs.Forms.{IsForm, IsWrongWord, IsFirstWrong, IsLabelled, request_of};

use crate::names::NameWords;
use crate::sources::{SourceWord, SourceWords};

/// What the words of a command line ask for.
#[derive(Debug, Drop, Clone, Copy, PartialEq, Eq)]
pub enum Command<'a> {
    /// To list the names of a source.
    List(SourceWord<'a>),
    /// To show the declarations of names of some sources.
    Show {
        sources: SourceWords<'a>,
        names: NameWords<'a>,
    },
    /// To check all declarations of some sources.
    Check(SourceWords<'a>),
}

/// The number of the first wrong word, from 1: no form begins with the words up to it. It is one more than the
/// number of words where they begin a form and are none.
#[derive(Debug, Drop, Clone, Copy, PartialEq, Eq)]
pub struct WrongWord {
    pub number: usize,
}

/// Reads the words of a command line, without the program's name.
pub fn read_command(words: &[String]) -> Result<Command<'_>, WrongWord>
    ensures found { IfOk result (λ command. IsForm (map string_bytes words.now) (request_of command)) }
    ensures labelled { IfOk result IsLabelled }
    ensures wrong { IfErr result (λ wrong. IsWrongWord (map string_bytes words.now) wrong.number) }
{
    let [name, rest @ ..] = words else {
        return Err(WrongWord { number: 1 });
    };
    match name.as_str() {
        "list" => read_list(rest),
        "show" => read_show(rest),
        "check" => read_check(rest),
        _ => Err(WrongWord { number: 1 }),
    }
}

/// The first wrong word where the word after these isn't text, and so of no form.
pub fn first_wrong_word(words: &[String]) -> WrongWord
    ensures { IsFirstWrong (map string_bytes words.now) result.number }
{
    match read_command(words) {
        Ok(_) => WrongWord {
            number: words.len() + 1,
        },
        Err(wrong) => wrong,
    }
}

// Reads the words after the name of `list`: one source.
fn read_list(rest: &[String]) -> Result<Command<'_>, WrongWord>
    ensures found { IfOk result (λ command. IsForm (codes "list" ∷ map string_bytes rest.now) (request_of command)) }
    ensures labelled { IfOk result IsLabelled }
    ensures wrong { IfErr result (λ wrong. IsWrongWord (codes "list" ∷ map string_bytes rest.now) wrong.number) }
{
    let [word, ..] = rest else {
        return Err(WrongWord { number: 2 });
    };
    let Some(source) = SourceWord::of(word.as_str()) else {
        return Err(WrongWord { number: 2 });
    };
    if rest.len() > 1 {
        return Err(WrongWord { number: 3 });
    }
    Ok(Command::List(source))
}

// Reads the words after the name of `show`: sources, `--` and names.
fn read_show(rest: &[String]) -> Result<Command<'_>, WrongWord>
    ensures found { IfOk result (λ command. IsForm (codes "show" ∷ map string_bytes rest.now) (request_of command)) }
    ensures labelled { IfOk result IsLabelled }
    ensures wrong { IfErr result (λ wrong. IsWrongWord (codes "show" ∷ map string_bytes rest.now) wrong.number) }
{
    let (sources, after) = SourceWords::leading(rest);
    let count = sources.len();
    let number = count + 2;
    let [mark, words @ ..] = after else {
        return Err(WrongWord { number });
    };
    if count == 0 || mark.as_str() != "--" {
        return Err(WrongWord { number });
    }
    match NameWords::of(words) {
        Ok(names) => Ok(Command::Show { sources, names }),
        Err(k) => Err(WrongWord {
            number: number + 1 + k,
        }),
    }
}

// Reads the words after the name of `check`: sources.
fn read_check(rest: &[String]) -> Result<Command<'_>, WrongWord>
    ensures found { IfOk result (λ command. IsForm (codes "check" ∷ map string_bytes rest.now) (request_of command)) }
    ensures labelled { IfOk result IsLabelled }
    ensures wrong { IfErr result (λ wrong. IsWrongWord (codes "check" ∷ map string_bytes rest.now) wrong.number) }
{
    let (sources, after) = SourceWords::leading(rest);
    let count = sources.len();
    let number = count + 2;
    if count == 0 {
        return Err(WrongWord { number });
    }
    match after {
        [] => Ok(Command::Check(sources)),
        [_, ..] => Err(WrongWord { number }),
    }
}

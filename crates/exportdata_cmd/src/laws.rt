ghost use Rattle.std.specs.Prelude.{◌≡◌, List, Some};
ghost use Rattle.outside.specs.Files.{Held};
ghost use Rattle.command_words.specs.Texts.{Word};
ghost use Rattle.exportdata_cmd.specs.Endings.{Ending};
ghost use Rattle.exportdata_cmd.specs.Due.{Due};

/// That at most one end is due for some words and files.
pub fn one_end_is_due()
    ensures { (words : List Word) (files : Held) (a b : Ending) → Due words (Some files) a
        → Due words (Some files) b → a ≡ b }
{}

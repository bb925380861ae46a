ghost use Rattle.std.specs.Prelude.{◌≡◌, ℕ, List};
ghost use Rattle.command_words.specs.Texts.{Word};
ghost use Rattle.command_words.specs.Forms.{Request, IsForm, IsWrongWord};

/// That words have one reading: they ask for one thing, or have one first wrong word, and not both.
pub fn words_have_one_reading()
    ensures one_request { (words : List Word) (a b : Request) → IsForm words a → IsForm words b → a ≡ b }
    ensures one_wrong_word { (words : List Word) (j k : ℕ) → IsWrongWord words j → IsWrongWord words k → j ≡ k }
    ensures apart { (words : List Word) (k : ℕ) (request : Request) → IsWrongWord words k → ¬ IsForm words request }
{}

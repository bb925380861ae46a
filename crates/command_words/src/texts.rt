ghost use Rattle.std.specs.Prelude.{◌<◌, ◌↔◌, IsTrue};
ghost use Rattle.command_words.specs.Texts.{Lacks, IsPath, IsFile};

/// Whether a text is a package path: it isn't empty, isn't `--`, and has no `:` and no `=`.
pub fn is_path(text: &str) -> bool
    ensures { IsTrue result ↔ IsPath text.now }
{
    is_file(text) && lacks(text, ':') && lacks(text, '=')
}

/// Whether a text may name a file: it isn't empty and isn't `--`.
pub fn is_file(text: &str) -> bool
    ensures { IsTrue result ↔ IsFile text.now }
{
    !text.is_empty() && text != "--"
}

// Whether an ASCII character isn't in the text.
fn lacks(text: &str, sign: char) -> bool
    requires { sign < 128 }
    ensures { IsTrue result ↔ Lacks sign text.now }
{
    !text.contains(sign)
}

ghost use Rattle.std.specs.Prelude.{◌≡◌};
ghost use Rattle.refusal_codes.specs.Codes.{code_name};

/// The rules under which a package is refused, in the order in which they count. A rule is looked at only where no
/// earlier one is broken.
#[derive(Clone, Copy, Debug, PartialEq, Eq)]
pub enum Code {
    /// A file has no list of tokens.
    Lex,
    /// The tokens of a file are none of the grammar.
    Syntax,
    /// A file has a form that the profile leaves out.
    LeftOut,
    /// A variable has no written type.
    NoVarType,
    /// A name is declared twice, or may not be declared.
    Duplicate,
    /// A name stands for nothing.
    Undefined,
    /// A foreign name leads to what can't be used.
    Damaged,
    /// A name stands for another thing where a type is wanted.
    NotAType,
    /// A name stands for another thing where a constant is wanted.
    NotAConstant,
    /// A declaration lies on a forbidden cycle.
    Cycle,
    /// A constant has no value, or one that doesn't fit.
    Constant,
    /// A generic type has a wrong number of arguments.
    Arity,
    /// A method can't have this receiver.
    Receiver,
    /// A struct can't embed this type.
    Embed,
    /// A method has the name of another or of a field.
    Method,
    /// The keys of a map can't be compared.
    Key,
    /// A union or an interface with terms can't stand here.
    Union,
    /// A type set grows past its limit.
    Expands,
    /// An interface has a method with two signatures.
    Clash,
}

impl Code {
    /// The name of the code, as a refusal prints it.
    pub fn name(self) -> &'static str
        ensures { result.now ≡ code_name self }
    {
        match self {
            Code::Lex => "Lex",
            Code::Syntax => "Syntax",
            Code::LeftOut => "LeftOut",
            Code::NoVarType => "NoVarType",
            Code::Duplicate => "Duplicate",
            Code::Undefined => "Undefined",
            Code::Damaged => "Damaged",
            Code::NotAType => "NotAType",
            Code::NotAConstant => "NotAConstant",
            Code::Cycle => "Cycle",
            Code::Constant => "Constant",
            Code::Arity => "Arity",
            Code::Receiver => "Receiver",
            Code::Embed => "Embed",
            Code::Method => "Method",
            Code::Key => "Key",
            Code::Union => "Union",
            Code::Expands => "Expands",
            Code::Clash => "Clash",
        }
    }
}

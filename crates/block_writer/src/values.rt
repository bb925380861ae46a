//! The values of constants.

ghost use Rattle.std.specs.Prelude.{◌≡◌, ◌*◌, ◌∷◌, [], IfSome, IfNone, IsTrue, OnOk};
ghost use Rattle.wire_bytes.specs.Whole.{IsGreatestLength};
ghost use Rattle.decl_spelling.specs.Constants.{kind_number, flag, number, offset, spelled};
ghost use Rattle.file_layout.specs.Items.{a_number, constant_kind, spelled_items, value_items};
ghost use Rattle.block_reader.specs.Spellings.{IsKind, IsSpelling, kind_shape, spelling_shape};
ghost use Rattle.block_writer.specs.Adding.{Adds};
ghost use Rattle.block_writer.specs.Declaring.{AddsFront, last_items, whole_item, IsWhole};

use crate::items::Item;
use block_reader::{Kind, Spelling, kind_of};
use code_tables::Basic;
use go_values::Const;
use std::alloc::AllocError;

/// Adds the number of the value's kind, and the value, which is spelled by the basic type of its type; but a whole
/// number, which stands last, isn't added.
pub(crate) fn push_constant_value<'a>(
    basic: Option<Basic>,
    value: &'a Const,
    into: &mut Vec<Item<'a>>,
) -> Result<(), AllocError>
    ensures { OnOk result (AddsFront into.old.items into.new.items
        (λ type. value_items (constant_kind basic) value.now) (last_items (constant_kind basic) value.now)) }
{
    push_value(constant_kind(basic), value, into)
}

fn constant_kind(basic: Option<Basic>) -> Kind
    ensures known { IsKind result }
    ensures exact { kind_shape result ≡ constant_kind basic }
{
    match basic {
        Some(basic) => kind_of(basic),
        None => Kind::NoConstant,
    }
}

fn push_value<'a>(kind: Kind, value: &'a Const, into: &mut Vec<Item<'a>>) -> Result<(), AllocError>
    ensures { OnOk result (AddsFront into.old.items into.new.items
        (λ type. value_items (kind_shape kind) value.now) (last_items (kind_shape kind) value.now)) }
{
    match kind {
        Kind::Spelled(spelling) => push_kind_and_value(spelling, value, into),
        Kind::Floating | Kind::NoConstant => Ok(()),
    }
}

fn push_kind_and_value<'a>(
    spelling: Spelling,
    value: &'a Const,
    into: &mut Vec<Item<'a>>,
) -> Result<(), AllocError>
    ensures { OnOk result (AddsFront into.old.items into.new.items
        (λ type. value_items (spelled (spelling_shape spelling)) value.now)
        (last_items (spelled (spelling_shape spelling)) value.now)) }
{
    push_kind(spelling, into)?;
    push_spelled(spelling, value, into)
}

fn push_kind(spelling: Spelling, into: &mut Vec<Item<'_>>) -> Result<(), AllocError>
    ensures { OnOk result (Adds into.old.items into.new.items
        (λ type. a_number (2 * kind_number (spelling_shape spelling)) ∷ [])) }
{
    into.extend_from_slice(&[Item::Number(2 * kind_number(spelling))])
}

/// The number of a kind of value.
fn kind_number(spelling: Spelling) -> u64
    ensures { result ≡ kind_number (spelling_shape spelling) }
{
    match spelling {
        Spelling::Flag => 1,
        Spelling::Offset => 2,
        Spelling::Number { .. } => 3,
    }
}

/// Adds a truth value or a text.
fn push_spelled<'a>(
    spelling: Spelling,
    value: &'a Const,
    into: &mut Vec<Item<'a>>,
) -> Result<(), AllocError>
    ensures { OnOk result (AddsFront into.old.items into.new.items
        (λ type. spelled_items (spelling_shape spelling) value.now)
        (last_items (spelled (spelling_shape spelling)) value.now)) }
{
    match spelling {
        Spelling::Flag => push_truth(value, into),
        Spelling::Offset => push_text(value, into),
        Spelling::Number { .. } => Ok(()),
    }
}

fn push_truth<'a>(value: &'a Const, into: &mut Vec<Item<'a>>) -> Result<(), AllocError>
    ensures { OnOk result (Adds into.old.items into.new.items (λ type. spelled_items flag value.now)) }
{
    match value {
        Const::Bool(flag) => into.extend_from_slice(&[Item::Flag(*flag)]),
        Const::Int(_) | Const::Str(_) => Ok(()),
    }
}

fn push_text<'a>(value: &'a Const, into: &mut Vec<Item<'a>>) -> Result<(), AllocError>
    ensures { OnOk result (Adds into.old.items into.new.items (λ type. spelled_items offset value.now)) }
{
    match value {
        Const::Str(text) => into.extend_from_slice(&[Item::Text(text.as_slice())]),
        Const::Bool(_) | Const::Int(_) => Ok(()),
    }
}

/// A whole number, which is signed or not, and whose type's values have at most `max` bytes.
#[derive(Clone, Copy)]
pub(crate) struct Whole {
    pub signed: bool,
    pub max: u8,
    pub value: i128,
}

/// The value of a constant, if it is a whole number and its type's values are.
pub(crate) fn whole_of(basic: Option<Basic>, value: &Const) -> Option<Whole>
    ensures found { IfSome result (λ whole. last_items (constant_kind basic) value.now ≡ whole_item whole ∷ []) }
    ensures spelling { IfSome result IsWhole }
    ensures none { IfNone result (last_items (constant_kind basic) value.now ≡ []) }
{
    whole_by(constant_kind(basic), value)
}

fn whole_by(kind: Kind, value: &Const) -> Option<Whole>
    requires { IsKind kind }
    ensures found { IfSome result (λ whole. last_items (kind_shape kind) value.now ≡ whole_item whole ∷ []) }
    ensures spelling { IfSome result IsWhole }
    ensures none { IfNone result (last_items (kind_shape kind) value.now ≡ []) }
{
    match kind {
        Kind::Spelled(spelling) => whole_spelled(spelling, value),
        Kind::Floating | Kind::NoConstant => None,
    }
}

fn whole_spelled(spelling: Spelling, value: &Const) -> Option<Whole>
    requires { IsSpelling spelling }
    ensures found { IfSome result (λ whole.
        last_items (spelled (spelling_shape spelling)) value.now ≡ whole_item whole ∷ []) }
    ensures spelling { IfSome result IsWhole }
    ensures none { IfNone result (last_items (spelled (spelling_shape spelling)) value.now ≡ []) }
{
    match spelling {
        Spelling::Number { signed, max } => whole_number(signed, max, value),
        Spelling::Flag | Spelling::Offset => None,
    }
}

fn whole_number(signed: bool, max: u8, value: &Const) -> Option<Whole>
    requires length { IsGreatestLength max }
    requires untyped { max ≡ 64 → IsTrue signed }
    ensures found { IfSome result (λ whole.
        last_items (spelled (number signed max)) value.now ≡ whole_item whole ∷ []) }
    ensures spelling { IfSome result IsWhole }
    ensures none { IfNone result (last_items (spelled (number signed max)) value.now ≡ []) }
{
    match value {
        Const::Int(value) => Some(Whole {
            signed,
            max,
            value: *value,
        }),
        Const::Bool(_) | Const::Str(_) => None,
    }
}

//! The head of a declaration of a type: as much of it as leads on to its type's name.

ghost use Rattle.std.specs.Prelude.{◌≡◌, ◌≤◌, ◌<◌, ◌-◌, ℕ, drop, option_map, IfSome, IfNone};
ghost use Rattle.file_parts.specs.FileParts.{IsOfFile};
ghost use Rattle.decl_spelling.specs.Sections.{Sections, HoldsBytes};
ghost use Rattle.decl_spelling.specs.Heads.{Lead, IsHead, find_byte, find_number, find_signed, find_text, pass_file};
ghost use Rattle.decl_spelling.specs.Heads.{pass_line, pass_position, pass_times, pass_numbers, find_name, name_by};
ghost use Rattle.decl_spelling.specs.Heads.{name_at, find_base, base_of, type_by, lead_at, lead_of, pass_tparams};
ghost use Rattle.decl_spelling.specs.Heads.{head_lead};
ghost use Rattle.position_codec.specs.Place.{is_odd};
ghost use Rattle.block_reader.specs.Calls.{sections_of};
ghost use Rattle.decl_reader.specs.Leads.{Finds, Passes, lead};

use crate::type_off::TypeOff;
use block_reader::{basic_of, decl_tag_of, type_tag_of};
use code_tables::{Basic, DeclTag, TypeTag};
use file_parts::Parts;
use wire_bytes::{Cursor, text_at};

/// Where the head of a declaration leads.
#[derive(Clone, Copy, Debug, PartialEq, Eq)]
pub enum Head<'a> {
    /// The type is a predeclared one.
    Known(Basic),
    /// The type is a defined type, an alias or an instance of one, of this name under the package's path.
    Link { path: &'a [u8], name: &'a [u8] },
}

/// Where the declaration at an offset of the data section of a full file or a bundle leads: a defined type by its
/// underlying type, and an alias by its right side. Of what stands before that type only numbers and texts are looked
/// at, and of a descriptor only a name. The path of a link need not be one of the index. It is None where no
/// declaration of a type stands there as far as its type, and where that type is another one. It takes no memory.
/// docs/FORMAT.md has the rule, "Where a name leads".
pub fn read_head<'a>(parts: &Parts<'a>, offset: u64) -> Option<Head<'a>>
    requires { IsOfFile parts.now }
    ensures found { IfSome result (λ head. IsHead (sections_of parts.now) offset (lead head)) }
    ensures none { IfNone result ((lead : Lead) → IsHead (sections_of parts.now) offset lead → ⊥) }
    ensures exact { option_map lead result ≡ head_lead (sections_of parts.now) offset }
{
    lead_from(parts, offset)
}

/// At each offset of a data section there is at most one head, which leads to one place.
pub fn one_head()
    ensures { (src : Sections) (start : ℕ) (a b : Lead) → IsHead src start a → IsHead src start b → a ≡ b }
{}

#[tactic(auto, unfolding(decl_spelling::specs::Heads::head_lead))]
fn lead_from<'a>(parts: &Parts<'a>, offset: u64) -> Option<Head<'a>>
    requires { IsOfFile parts.now }
    ensures exact { option_map lead result ≡ head_lead (sections_of parts.now) offset }
    ensures bytes { HoldsBytes (sections_of parts.now) }
{
    let mut cursor = cursor_at(parts, offset);
    let letter = find_byte(&mut cursor)?;
    let kind = decl_tag_of(parts.version, letter)?;
    pass_position(parts.strings(), &mut cursor)?;
    pass_tparams(kind, &mut cursor)?;
    let number = find_number(&mut cursor)?;
    lead_of(parts, number)
}

/// What is left of the data section at an offset.
fn cursor_at<'a>(parts: &Parts<'a>, offset: u64) -> Cursor<'a>
    requires { IsOfFile parts.now }
    ensures left { result.left ≡ drop offset (sections_of parts.now).body }
    ensures bytes { HoldsBytes (sections_of parts.now) }
{
    parts.cursor(offset.min(parts.body_len), parts.body_len)
}

fn find_byte(cursor: &mut Cursor<'_>) -> Option<u8>
    ensures { Finds (λ b. b) result cursor.new.left (find_byte cursor.old.left) }
{
    cursor.byte().ok()
}

fn find_number(cursor: &mut Cursor<'_>) -> Option<u64>
    ensures { Finds (λ n. n) result cursor.new.left (find_number cursor.old.left) }
{
    cursor.uvarint().ok()
}

#[tactic(auto, unfolding(decl_spelling::specs::Heads::find_signed))]
fn find_signed(cursor: &mut Cursor<'_>) -> Option<i64>
    ensures { Finds (λ x. x) result cursor.new.left (find_signed cursor.old.left) }
{
    cursor.varint().ok()
}

#[tactic(auto, unfolding(decl_spelling::specs::Heads::find_text))]
fn find_text<'s>(strings: &'s [u8], cursor: &mut Cursor<'_>) -> Option<&'s [u8]>
    ensures { Finds (λ t. t.now) result cursor.new.left (find_text strings.now cursor.old.left) }
{
    let offset = find_number(cursor)?;
    text_at(strings, offset)
}

/// Goes on behind a position. What its numbers move to isn't looked at.
#[tactic(auto, unfolding(decl_spelling::specs::Heads::pass_position))]
fn pass_position(strings: &[u8], cursor: &mut Cursor<'_>) -> Option<()>
    ensures { Passes result cursor.new.left (pass_position strings.now cursor.old.left) }
{
    let column = find_signed(cursor)?;
    pass_line(strings, is_odd(column), cursor)
}

#[tactic(auto, unfolding(decl_spelling::specs::Heads::pass_line))]
fn pass_line(strings: &[u8], follows: bool, cursor: &mut Cursor<'_>) -> Option<()>
    ensures { Passes result cursor.new.left (pass_line strings.now follows cursor.old.left) }
{
    if !follows {
        return Some(());
    }
    let line = find_signed(cursor)?;
    pass_file(strings, is_odd(line), cursor)
}

#[tactic(auto, unfolding(decl_spelling::specs::Heads::pass_file))]
fn pass_file(strings: &[u8], follows: bool, cursor: &mut Cursor<'_>) -> Option<()>
    ensures { Passes result cursor.new.left (pass_file strings.now follows cursor.old.left) }
{
    if !follows {
        return Some(());
    }
    let _file = find_text(strings, cursor)?;
    Some(())
}

/// Whether a part of the position follows.
fn is_odd(number: i64) -> bool
    ensures { result ≡ is_odd number }
{
    number % 2 != 0
}

/// Goes on behind at least one number, after their count.
#[tactic(auto, unfolding(decl_spelling::specs::Heads::pass_numbers))]
fn pass_numbers(cursor: &mut Cursor<'_>) -> Option<()>
    ensures { Passes result cursor.new.left (pass_numbers cursor.old.left) }
{
    let count = find_number(cursor)?;
    if count == 0 {
        return None;
    }
    pass_times(count, cursor)
}

fn pass_times(count: u64, cursor: &mut Cursor<'_>) -> Option<()>
    ensures { Passes result cursor.new.left (pass_times count cursor.old.left) }
{
    for _ in 0..count {
        find_number(cursor)?;
    }
    Some(())
}

/// Goes on behind the type parameters of a declaration of a type. Another one leads nowhere.
fn pass_tparams(kind: DeclTag, cursor: &mut Cursor<'_>) -> Option<()>
    ensures { Passes result cursor.new.left (pass_tparams kind cursor.old.left) }
{
    match kind {
        DeclTag::Defined | DeclTag::Alias => Some(()),
        DeclTag::GenericDefined | DeclTag::GenericAlias => pass_numbers(cursor),
        DeclTag::Var
        | DeclTag::Func
        | DeclTag::GenericFunc
        | DeclTag::Const
        | DeclTag::TypeParameter => None,
    }
}

/// Where a typeOff leads.
fn lead_of<'a>(parts: &Parts<'a>, number: u64) -> Option<Head<'a>>
    requires { IsOfFile parts.now }
    ensures { option_map lead result ≡ lead_of (sections_of parts.now) number }
{
    match TypeOff::new(number) {
        TypeOff::Basic(code) => Some(Head::Known(basic_of(parts.version, code)?)),
        TypeOff::At(offset) => lead_at(parts, offset),
    }
}

/// Where the descriptor at an offset leads: by its name, or by that of its generic type.
#[tactic(auto, unfolding(decl_spelling::specs::Heads::lead_at, decl_spelling::specs::Heads::kind_at))]
fn lead_at<'a>(parts: &Parts<'a>, offset: u64) -> Option<Head<'a>>
    requires { IsOfFile parts.now }
    ensures { option_map lead result ≡ lead_at (sections_of parts.now) offset }
{
    let mut cursor = cursor_at(parts, offset);
    let number = find_number(&mut cursor)?;
    let kind = type_tag_of(parts.version, number)?;
    if kind == TypeTag::Instance {
        find_base(parts, &mut cursor)
    } else {
        name_by(parts, kind, &mut cursor)
    }
}

/// The name at the base of an instance.
#[tactic(auto, unfolding(decl_spelling::specs::Heads::find_base))]
fn find_base<'a>(parts: &Parts<'a>, cursor: &mut Cursor<'_>) -> Option<Head<'a>>
    requires { IsOfFile parts.now }
    ensures { option_map lead result ≡ find_base (sections_of parts.now) cursor.old.left }
{
    pass_position(parts.strings(), cursor)?;
    pass_numbers(cursor)?;
    let number = find_number(cursor)?;
    base_of(parts, number)
}

/// The name that is the base of an instance, by its typeOff.
fn base_of<'a>(parts: &Parts<'a>, number: u64) -> Option<Head<'a>>
    requires { IsOfFile parts.now }
    ensures { option_map lead result ≡ base_of (sections_of parts.now) number }
{
    match TypeOff::new(number) {
        TypeOff::Basic(_) => None,
        TypeOff::At(offset) => name_at(parts, offset),
    }
}

/// The name that is the descriptor at an offset.
#[tactic(auto, unfolding(decl_spelling::specs::Heads::name_at, decl_spelling::specs::Heads::kind_at))]
fn name_at<'a>(parts: &Parts<'a>, offset: u64) -> Option<Head<'a>>
    requires { IsOfFile parts.now }
    ensures { option_map lead result ≡ name_at (sections_of parts.now) offset }
{
    let mut cursor = cursor_at(parts, offset);
    let number = find_number(&mut cursor)?;
    let kind = type_tag_of(parts.version, number)?;
    name_by(parts, kind, &mut cursor)
}

/// The name in a descriptor of a kind, which is that of a defined type or an alias.
fn name_by<'a>(parts: &Parts<'a>, kind: TypeTag, cursor: &mut Cursor<'_>) -> Option<Head<'a>>
    requires { IsOfFile parts.now }
    ensures { option_map lead result ≡ name_by (sections_of parts.now) kind cursor.old.left }
{
    match kind {
        TypeTag::Defined | TypeTag::Alias => find_name(parts, cursor),
        _ => None,
    }
}

#[tactic(auto, unfolding(decl_spelling::specs::Heads::find_name))]
fn find_name<'a>(parts: &Parts<'a>, cursor: &mut Cursor<'_>) -> Option<Head<'a>>
    requires { IsOfFile parts.now }
    ensures { option_map lead result ≡ find_name (sections_of parts.now) cursor.old.left }
{
    let name = find_text(parts.strings(), cursor)?;
    let text = find_text(parts.strings(), cursor)?;
    Some(Head::Link {
        path: if text.is_empty() { parts.own } else { text },
        name,
    })
}

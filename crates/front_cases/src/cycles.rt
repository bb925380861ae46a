//! Cases of declarations that may lie on cycles. Each is written in words, with `;` between two: `[N]` where it has N
//! type parameters, then what it holds, then the lists of the other kinds.

ghost use Rattle.std.specs.Prelude.{◌<◌, ◌^◌, IfOk, length};
ghost use Rattle.cycle_rules.specs.Cycles.{AreShapes};

use crate::fitting::are_shapes;
use crate::no_answer::NoAnswer;
use cycle_rules::{CycleKind, DeclShape, Form, check_cycles, cycle_kinds};
use sqlite_items::Items;
use std::alloc::{AllocError, Global};

/// An application or a row of parts that isn't closed yet, with the forms inside it so far.
#[derive(Drop)]
struct Open {
    applied: Option<u32>,
    inside: Items<Form>,
}

/// The declarations that are read, and the one that is being read.
#[derive(Drop)]
struct Reader {
    alloc: Global,
    read: Vec<DeclShape>,
    shape: DeclShape,
    open: Vec<Open>,
    list: CycleKind,
}

fn new_shape(alloc: Global) -> DeclShape {
    DeclShape {
        params: 0,
        holds: Form::Stop,
        embeds: Vec::new(alloc),
        aliases: Vec::new(alloc),
        constraints: Vec::new(alloc),
        values: Vec::new(alloc),
    }
}

impl Reader {
    /// Takes the next word.
    fn take(&mut self, word: &str) -> Result<(), NoAnswer> {
        match word {
            ";" => self.finish(),
            "{" => self.open(None),
            "}" | ")" => self.close(),
            "-" => self.put(Form::Stop),
            "embeds" => self.begin(CycleKind::Embeds),
            "aliases" => self.begin(CycleKind::OfAlias),
            "constraints" => self.begin(CycleKind::Constraint),
            "values" => self.begin(CycleKind::Value),
            _ => self.take_number(word),
        }
    }

    /// Takes a word with a number in it.
    fn take_number(&mut self, word: &str) -> Result<(), NoAnswer> {
        if let Some(count) = word.strip_prefix("[") {
            self.shape.params = number(count.strip_suffix("]").ok_or(NoAnswer::NoCase)?)?;
            return Ok(());
        }
        if let Some(parameter) = word.strip_prefix("#") {
            return self.put(Form::Held(number(parameter)?));
        }
        if let Some(applied) = word.strip_suffix("(") {
            let place = self.place(applied)?;
            return self.open(Some(place));
        }
        let place = self.place(word)?;
        self.mention(place)
    }

    /// The place of a declaration: a number from 0, or one behind `+` that counts from the declaration that is read.
    fn place(&self, word: &str) -> Result<u32, NoAnswer> {
        match word.strip_prefix("+") {
            None => number(word),
            Some(ahead) => {
                let place = self.read.len().saturating_add(number(ahead)? as usize);
                u32::try_from(place).or(Err(NoAnswer::NoCase))
            }
        }
    }

    /// Puts a declaration into what is being read: a list, or what is held.
    fn mention(&mut self, place: u32) -> Result<(), NoAnswer> {
        match self.list {
            CycleKind::Contains => {
                let none = Items::new(self.alloc);
                return self.put(Form::Apply(place, none));
            }
            CycleKind::Embeds => self.shape.embeds.push(place)?,
            CycleKind::OfAlias => self.shape.aliases.push(place)?,
            CycleKind::Constraint => self.shape.constraints.push(place)?,
            CycleKind::Value => self.shape.values.push(place)?,
        }
        Ok(())
    }

    fn begin(&mut self, list: CycleKind) -> Result<(), NoAnswer> {
        self.list = list;
        Ok(())
    }

    fn open(&mut self, applied: Option<u32>) -> Result<(), NoAnswer> {
        let inside = Items::new(self.alloc);
        self.open.push(Open { applied, inside })?;
        Ok(())
    }

    fn close(&mut self) -> Result<(), NoAnswer> {
        let Some(Open { applied, inside }) = self.open.pop() else {
            return Err(NoAnswer::NoCase);
        };
        match applied {
            Some(place) => self.put(Form::Apply(place, inside)),
            None => self.put(Form::Parts(inside)),
        }
    }

    /// Puts a form into what is open, or has the declaration hold it.
    fn put(&mut self, form: Form) -> Result<(), NoAnswer> {
        match self.open.last_mut() {
            Some(open) => open.inside.push(form)?,
            None => self.shape.holds = form,
        }
        Ok(())
    }

    /// Ends the declaration that is read.
    fn finish(&mut self) -> Result<(), NoAnswer> {
        if !self.open.is_empty() {
            return Err(NoAnswer::NoCase);
        }
        let shape = std::mem::replace(&mut self.shape, new_shape(self.alloc));
        self.read.push(shape)?;
        self.list = CycleKind::Contains;
        Ok(())
    }
}

fn number(word: &str) -> Result<u32, NoAnswer> {
    word.parse::<u32>().or(Err(NoAnswer::NoCase))
}

/// The declarations that these words are.
fn read_shapes(alloc: Global, words: &[&str]) -> Result<Vec<DeclShape>, NoAnswer> {
    let mut reader = Reader {
        alloc,
        read: Vec::new(alloc),
        shape: new_shape(alloc),
        open: Vec::new(alloc),
        list: CycleKind::Contains,
    };
    for word in words {
        reader.take(word)?;
    }
    if !words.is_empty() {
        reader.finish()?;
    }
    Ok(reader.read)
}

/// The declarations that these words are, if the check of cycles takes them.
fn proper_shapes(alloc: Global, words: &[&str]) -> Result<Vec<DeclShape>, NoAnswer>
    ensures size { IfOk result (λ shapes. length shapes.items < 2 ^ 32) }
    ensures shapes { IfOk result (λ shapes. AreShapes shapes.items) }
{
    let shapes = read_shapes(alloc, words)?;
    if shapes.len() > u32::MAX as usize || !are_shapes(&shapes) {
        return Err(NoAnswer::NoCase);
    }
    Ok(shapes)
}

/// The first cycle of these declarations, if there is one.
pub fn checked(alloc: Global, words: &[&str]) -> Result<String, NoAnswer> {
    let shapes = proper_shapes(alloc, words)?;
    Ok(found(alloc, &shapes)?)
}

/// For each of these declarations the first kind of which it lies on a cycle, if it lies on one.
pub fn kinds(alloc: Global, words: &[&str]) -> Result<String, NoAnswer> {
    let shapes = proper_shapes(alloc, words)?;
    let kinds = cycle_kinds(alloc, &shapes)?;
    Ok(format!(in alloc; "{kinds:?}")?)
}

/// What the check answers, which has ranks where there is no cycle.
fn found(alloc: Global, shapes: &[DeclShape]) -> Result<String, AllocError>
    requires size { length shapes.now < 2 ^ 32 }
    requires shapes { AreShapes shapes.now }
{
    match check_cycles(alloc, shapes) {
        Ok(_) => format!(in alloc; "no cycle"),
        Err(fault) => format!(in alloc; "{fault:?}"),
    }
}

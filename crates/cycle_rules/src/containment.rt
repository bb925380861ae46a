//! Which declarations each declaration contains.

ghost use Rattle.std.specs.Prelude.{◌≡◌, ℕ, ◌+◌, ◌-◌, ◌<◌, ◌≤◌, ◌^◌, List, length, IsTrue, IsFalse, Bool, true, Some};
ghost use Rattle.std.specs.Prelude.{IfOk, OnOk, OnErr, IfSome, IfNone, slice_get, slice_set, sum_by, replicate, []};
ghost use Rattle.cycle_rules.specs.Paths.{Arrow};
ghost use Rattle.cycle_rules.specs.Forms.{Fits, Content, parameter, shape, Owns};
ghost use Rattle.cycle_rules.specs.Counting.{form_count};
ghost use Rattle.cycle_rules.specs.Containment.{IsUnmarked, AreWhole, GainsEntry, IsMarked, IsPlaced, Counts, HasEntry};
ghost use Rattle.cycle_rules.specs.Containment.{StandsAt, IsFound, IsNext, Applies, ArePlaced, IsSound, OnlyPlaces};
ghost use Rattle.cycle_rules.specs.Containment.{IsArgument, size_left, count_unmarked, rows_of};

use crate::shapes::{DeclShape, Form};
use std::alloc::{AllocError, Global};
use std::marker::Model;

/// A form that counts, and the declaration that it stands in.
#[derive(Clone, Copy)]
pub struct Place<'a> {
    pub owner: u32,
    pub form: &'a Form,
}

/// A search for what each declaration contains. A contract sees what was found so far.
#[derive(Drop)]
pub struct Containment<'a> {
    shapes: &'a [DeclShape],
    /// For each declaration, which of its own parameters it contains.
    contained: Vec<Vec<bool>>,
    /// The forms that count.
    places: Vec<Place<'a>>,
    /// How many of these were handled.
    at: usize,
    /// For each declaration, the forms that count and apply it.
    applications: Vec<Vec<Place<'a>>>,
    /// For each declaration, those that it contains.
    edges: Vec<Vec<u32>>,
}

impl<'a> Model for Containment<'a> {
    ghost use Rattle.std.specs.Coded.{codes};
    ghost use Rattle.cycle_rules.specs.contracts.shapes.Form as form;
    ghost use Rattle.cycle_rules.specs.Containment.{Findings, IsContainment, rows_of};

    ghost Value = { Findings };

    ghost coded = { Prim.hlevel (codes, form.the_row.coded) };

    ghost view = { λ s. record {
      shapes = s.shapes.now;
      marks = rows_of s.contained.items;
      places = s.places.items;
      at = s.at;
      applications = rows_of s.applications.items;
      edges = rows_of s.edges.items;
    } };

    ghost invariant = { λ s. IsContainment s.shapes.now (rows_of s.contained.items) s.places.items s.at
        (rows_of s.applications.items) (rows_of s.edges.items) };
}

impl<'a> Containment<'a> {
    /// A search that hasn't handled any form yet.
    fn new(alloc: Global, shapes: &'a [DeclShape]) -> Result<Containment<'a>, AllocError>
        requires size { length shapes.now < 2 ^ 32 }
        requires fits { (s : ℕ) (of : DeclShape) → slice_get shapes.now s ≡ Some of
            → Fits shapes.now of.params of.holds }
        ensures { IfOk result (λ s. s.shapes ≡ shapes.now) }
    {
        Ok(Containment {
            shapes,
            contained: unmarked(alloc, shapes)?,
            places: whole_forms(alloc, shapes)?,
            at: 0,
            applications: empty_rows(alloc, shapes.len())?,
            edges: empty_rows(alloc, shapes.len())?,
        })
    }

    /// Adds a form that counts.
    fn add(&mut self, owner: u32, form: &'a Form) -> Result<(), AllocError>
        requires counts { Counts self.old.shapes owner form.now }
        ensures only { OnOk result (OnlyPlaces self.old self.new) }
        ensures placed { OnOk result (IsPlaced self.new.places owner form.now) }
        ensures size { OnOk result (size_left self.new.places self.old.at
            ≡ size_left self.old.places self.old.at + form_count form.now) }
    {
        self.places.push(Place { owner, form })?;
        Ok(())
    }

    /// Adds each of these forms as one that counts.
    fn add_all(&mut self, owner: u32, forms: &'a [Form]) -> Result<(), AllocError>
        requires counts { (k : ℕ) (form : Form) → slice_get forms.now k ≡ Some form
            → Counts self.old.shapes owner form }
        ensures only { OnOk result (OnlyPlaces self.old self.new) }
        ensures placed { OnOk result ((k : ℕ) (form : Form) → slice_get forms.now k ≡ Some form
            → IsPlaced self.new.places owner form) }
        ensures size { OnOk result (size_left self.new.places self.old.at
            ≤ size_left self.old.places self.old.at + sum_by form_count forms.now) }
    {
        for form in forms {
            self.add(owner, form)?;
        }
        Ok(())
    }

    /// Adds an application, and those of its arguments that the applied declaration contains.
    fn add_application(
        &mut self,
        place: Place<'a>,
        applied: u32,
        arguments: &'a [Form],
    ) -> Result<(), AllocError>
        requires at { slice_get self.old.places self.old.at ≡ Some place }
        requires counts { Counts self.old.shapes place.owner place.form.now }
        requires form { place.form.now ≡ Form.Apply applied arguments.now }
        ensures handled { OnOk result (IsFound self.new place.entry) }
        ensures next { OnOk result (IsNext self.old self.new place.entry) }
        ensures size { OnOk result (size_left self.new.places self.old.at
            ≤ size_left self.old.places self.old.at + sum_by form_count arguments.now) }
    {
        self.add_contained(place.owner, applied, arguments)?;
        self.push_application(applied, place)?;
        self.push_edge(place.owner, applied)?;
        Ok(())
    }

    /// Lists an application, whose arguments that count stand among the places.
    fn push_application(&mut self, applied: u32, place: Place<'a>) -> Result<(), AllocError>
        requires at { slice_get self.old.places self.old.at ≡ Some place }
        requires applies { Applies self.old place applied }
        ensures listed { OnOk result (GainsEntry self.old.applications self.new.applications applied place.entry) }
        ensures same { OnOk result (self.new ≡ record self.old { applications = self.new.applications }) }
    {
        push_to(&mut self.applications, applied, place)?;
        Ok(())
    }

    fn push_edge(&mut self, owner: u32, target: u32) -> Result<(), AllocError>
        requires { Owns self.old.shapes owner (shape target) }
        ensures edges { OnOk result (GainsEntry self.old.edges self.new.edges owner target) }
        ensures same { OnOk result (self.new ≡ record self.old { edges = self.new.edges }) }
    {
        push_to(&mut self.edges, owner, target)?;
        Ok(())
    }

    /// Adds those arguments that the applied declaration contains.
    fn add_contained(
        &mut self,
        owner: u32,
        applied: u32,
        arguments: &'a [Form],
    ) -> Result<(), AllocError>
        requires { Counts self.old.shapes owner (Form.Apply applied arguments.now) }
        ensures only { OnOk result (OnlyPlaces self.old self.new) }
        ensures placed { OnOk result ((k : ℕ) (form : Form) → IsMarked self.old.marks applied k
            → slice_get arguments.now k ≡ Some form → IsPlaced self.new.places owner form) }
        ensures size { OnOk result (size_left self.new.places self.old.at
            ≤ size_left self.old.places self.old.at + sum_by form_count arguments.now) }
    {
        for (index, form) in arguments.iter().enumerate() {
            if !self.contains(applied, index) {
                continue;
            }
            self.add(owner, form)?;
        }
        Ok(())
    }

    /// Adds what counts in the next place.
    fn expand(&mut self, place: Place<'a>) -> Result<(), AllocError>
        requires at { slice_get self.old.places self.old.at ≡ Some place }
        requires counts { Counts self.old.shapes place.owner place.form.now }
        requires held { (i : ℕ) → place.form.now ≡ Form.Held i → IsMarked self.old.marks place.owner i }
        ensures handled { OnOk result (IsFound self.new place.entry) }
        ensures next { OnOk result (IsNext self.old self.new place.entry) }
        ensures size { OnOk result (size_left self.new.places self.old.at + 1
            ≤ size_left self.old.places self.old.at + form_count place.entry.form.now) }
    {
        match place.form {
            Form::Stop => Ok(()),
            Form::Held(_) => Ok(()),
            Form::Apply(applied, arguments) => {
                self.add_application(place, *applied, arguments.as_slice())?;
                Ok(())
            }
            Form::Parts(parts) => {
                self.add_all(place.owner, parts.as_slice())?;
                Ok(())
            }
        }
    }

    /// Handles the next place.
    fn handle(&mut self, place: Place<'a>) -> Result<(), AllocError>
        requires at { slice_get self.old.places self.old.at ≡ Some place }
        requires counts { Counts self.old.shapes place.owner place.form.now }
        requires held { (i : ℕ) → place.form.now ≡ Form.Held i → IsMarked self.old.marks place.owner i }
        ensures shapes { OnOk result (self.new.shapes ≡ self.old.shapes) }
        ensures marks { OnOk result (self.new.marks ≡ self.old.marks) }
        ensures size { OnOk result (size_left self.new.places self.new.at < size_left self.old.places self.old.at) }
    {
        self.expand(place)?;
        self.at += 1;
        Ok(())
    }

    /// Whether this parameter of a declaration is known to be contained.
    fn contains(&self, owner: u32, index: usize) -> bool
        ensures marked { IsTrue result → IsMarked self.now.marks owner index }
        ensures unmarked { IsFalse result → IsMarked self.now.marks owner index → ⊥ }
        ensures sound { IsSound self.now }
    {
        entry_at(&self.contained, owner, index).unwrap_or(false)
    }

    /// The next place, if one is left.
    fn next(&self) -> Option<Place<'a>>
        ensures found { IfSome result (λ place. slice_get self.now.places self.now.at ≡ Some place) }
        ensures counts { IfSome result (λ place. Counts self.now.shapes place.owner place.form.now) }
        ensures ended { IfNone result (self.now.at ≡ length self.now.places) }
    {
        if self.at < self.places.len() {
            return Some(self.places[self.at]);
        }
        None
    }

    /// The parameter that this place is, if its owner isn't known to contain it.
    fn unknown(&self, place: Place<'a>) -> Option<u32>
        requires counts { Counts self.now.shapes place.owner place.form.now }
        ensures found { IfSome result (λ i. place.entry.form.now ≡ Form.Held i) }
        ensures new { IfSome result (λ i. IsMarked self.now.marks place.entry.owner i → ⊥) }
        ensures within { IfSome result (λ i. HasEntry self.now.marks place.entry.owner i) }
        ensures known { IfNone result ((i : ℕ) → place.entry.form.now ≡ Form.Held i
            → IsMarked self.now.marks place.entry.owner i) }
    {
        let Form::Held(index) = place.form else {
            return None;
        };
        if self.contains(place.owner, *index as usize) {
            return None;
        }
        Some(*index)
    }

    /// Handles places until one is a parameter that its owner wasn't known to contain. Answers its owner and it.
    fn find(&mut self) -> Result<Option<(u32, u32)>, AllocError>
        ensures shapes { OnOk result (self.new.shapes ≡ self.old.shapes) }
        ensures marks { OnOk result (self.new.marks ≡ self.old.marks) }
        ensures found { IfOk result (λ o. IfSome o (λ p. Owns self.new.shapes p.0 (parameter p.1))) }
        ensures new { IfOk result (λ o. IfSome o (λ p. IsMarked self.new.marks p.0 p.1 → ⊥)) }
        ensures within { IfOk result (λ o. IfSome o (λ p. HasEntry self.new.marks p.0 p.1)) }
        ensures ended { IfOk result (λ o. IfNone o (self.new.at ≡ length self.new.places)) }
    {
        while let Some(place) = self.next() {
            if let Some(index) = self.unknown(place) {
                return Ok(Some((place.owner, index)));
            }
            self.handle(place)?;
        }
        Ok(None)
    }

    /// How many forms are listed that apply a declaration.
    fn application_count(&self, owner: u32) -> usize
        requires { (content : Content) × Owns self.now.shapes owner content }
        ensures { (row : List Place) → slice_get self.now.applications owner ≡ Some row → result ≡ length row }
    {
        self.applications[owner as usize].len()
    }

    /// The form at this place of those that apply a declaration.
    fn application(&self, owner: u32, at: usize) -> Option<Place<'a>>
        ensures found { IfSome result (λ place. StandsAt self.now.applications owner at place) }
        ensures none { IfNone result ((place : Place) → StandsAt self.now.applications owner at place → ⊥) }
        ensures sound { IsSound self.now }
    {
        entry_at(&self.applications, owner, at)
    }

    /// Notes that a declaration contains this parameter of its own: the arguments for it count.
    fn mark(&mut self, owner: u32, index: u32) -> Result<(), AllocError>
        requires owns { Owns self.old.shapes owner (parameter index) }
        requires new { IsMarked self.old.marks owner index → ⊥ }
        requires within { HasEntry self.old.marks owner index }
        ensures shapes { OnOk result (self.new.shapes ≡ self.old.shapes) }
        ensures fewer { OnOk result (count_unmarked self.new.marks + 1 ≡ count_unmarked self.old.marks) }
    {
        for at in 0..self.application_count(owner) {
            let Some(place) = self.application(owner, at) else {
                continue;
            };
            let Some(form) = argument_at(place.form, index as usize) else {
                continue;
            };
            self.add(place.owner, form)?;
        }
        self.set_contained(owner, index);
        Ok(())
    }

    /// Sets a parameter, for which each argument is among the places.
    fn set_contained(&mut self, owner: u32, index: u32)
        requires owns { Owns self.old.shapes owner (parameter index) }
        requires within { HasEntry self.old.marks owner index }
        requires passed { ArePlaced self.old owner index }
        ensures marks { (row : List Bool) → slice_get self.old.marks owner ≡ Some row
            → self.new.marks ≡ slice_set self.old.marks owner (slice_set row index true) }
        ensures same { self.new ≡ record self.old { marks = self.new.marks } }
    {
        set_entry(&mut self.contained, owner, index);
    }

    /// For each declaration, those that it contains.
    fn into_edges(self) -> Vec<Vec<u32>>
        ensures edges { rows_of result.items ≡ self.entry.edges }
        ensures sound { IsSound self.entry }
    {
        self.edges
    }
}

/// The argument in this place of an application, if it has so many.
fn argument_at(form: &Form, place: usize) -> Option<&Form>
    ensures found { IfSome result (λ argument. IsArgument form.now place argument.now) }
    ensures none { IfNone result ((argument : Form) → IsArgument form.now place argument → ⊥) }
{
    let Form::Apply(_, arguments) = form else {
        return None;
    };
    arguments.as_slice().get(place)
}

/// The entry of a table.
fn entry_at<T: Copy>(rows: &[Vec<T>], row: u32, column: usize) -> Option<T>
    ensures found { IfSome result (λ entry. StandsAt (rows_of rows.now) row column entry) }
    ensures none { IfNone result ((entry : T) → StandsAt (rows_of rows.now) row column entry → ⊥) }
{
    if row as usize >= rows.len() {
        return None;
    }
    let entries = &rows[row as usize];
    if column >= entries.len() {
        return None;
    }
    Some(entries[column])
}

/// Puts an entry at the end of a row.
fn push_to<T: Drop>(rows: &mut Vec<Vec<T>>, row: u32, entry: T) -> Result<(), AllocError>
    requires { row < length rows.old.items }
    ensures gained { OnOk result (GainsEntry (rows_of rows.old.items) (rows_of rows.new.items) row entry) }
    ensures refused { OnErr result (rows_of rows.new.items ≡ rows_of rows.old.items) }
{
    rows[row as usize].push(entry)?;
    Ok(())
}

/// Sets an entry of a table.
fn set_entry(rows: &mut Vec<Vec<bool>>, row: u32, column: u32)
    requires { HasEntry (rows_of rows.old.items) row column }
    ensures { (entries : List Bool) → slice_get (rows_of rows.old.items) row ≡ Some entries
        → rows_of rows.new.items ≡ slice_set (rows_of rows.old.items) row (slice_set entries column true) }
{
    rows[row as usize][column as usize] = true;
}

/// For each declaration a row with an entry for each of its parameters, none of which is set.
fn unmarked(alloc: Global, shapes: &[DeclShape]) -> Result<Vec<Vec<bool>>, AllocError>
    ensures { IfOk result (λ rows. IsUnmarked shapes.now (rows_of rows.items)) }
{
    let mut rows = Vec::with_capacity(alloc, shapes.len())?;
    for shape in shapes {
        rows.push(vec![in alloc; false; shape.params as usize]?)?;
    }
    Ok(rows)
}

/// The whole form of each declaration.
fn whole_forms<'a>(alloc: Global, shapes: &'a [DeclShape]) -> Result<Vec<Place<'a>>, AllocError>
    requires { length shapes.now < 2 ^ 32 }
    ensures { IfOk result (λ places. AreWhole shapes.now places.items) }
{
    let mut places = Vec::with_capacity(alloc, shapes.len())?;
    for (owner, shape) in shapes.iter().enumerate() {
        places.push(Place {
            owner: owner as u32,
            form: &shape.holds,
        })?;
    }
    Ok(places)
}

/// This many empty rows.
fn empty_rows<T: Drop>(alloc: Global, count: usize) -> Result<Vec<Vec<T>>, AllocError>
    ensures { IfOk result (λ rows. rows_of rows.items ≡ replicate count []) }
{
    let mut rows = Vec::with_capacity(alloc, count)?;
    for _ in 0..count {
        rows.push(Vec::new(alloc))?;
    }
    Ok(rows)
}

/// For each declaration, those that it contains. Takes time in proportion to the forms, the declarations and their
/// parameters.
pub fn contained_in(alloc: Global, shapes: &[DeclShape]) -> Result<Vec<Vec<u32>>, AllocError>
    requires size { length shapes.now < 2 ^ 32 }
    requires fits { (s : ℕ) (of : DeclShape) → slice_get shapes.now s ≡ Some of → Fits shapes.now of.params of.holds }
    ensures sized { IfOk result (λ edges. length edges.items ≡ length shapes.now) }
    ensures sound { IfOk result (λ edges. (s t : ℕ) → Arrow (rows_of edges.items) s t
        → Owns shapes.now s (shape t)) }
    ensures every { IfOk result (λ edges. (s t : ℕ) → Owns shapes.now s (shape t)
        → Arrow (rows_of edges.items) s t) }
{
    let mut search = Containment::new(alloc, shapes)?;
    while let Some((owner, index)) = search.find()? {
        search.mark(owner, index)?;
    }
    Ok(search.into_edges())
}

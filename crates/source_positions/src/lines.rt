ghost use Rattle.std.specs.Prelude.{◌≡◌, ◌≤◌, ◌<◌, ◌-◌, ◌+◌, ◌++◌, ℕ, List, length, slice_index_or, IfOk, OnOk};
ghost use Rattle.std.specs.List.{Contains};
ghost use Rattle.source_positions.specs.Lines.{line_starts, start_behind, AreStarts, Cuts};
ghost use Rattle.source_positions.specs.Positions.{IsLineStart, IsPosition};
ghost use Rattle.source_positions.specs.declared.lines.LineColumn.{LineColumn};
ghost use Rattle.source_positions.specs.declared.lines.TheConstants.{SIZE_LIMIT};

use std::alloc::{AllocError, Global};
use std::marker::Model;

/// The most bytes of a source.
pub const SIZE_LIMIT: usize = 4_294_967_294;

/// A line and a column, each from 1, the column in bytes.
#[derive(Clone, Copy, Debug, PartialEq, Eq)]
pub struct LineColumn {
    pub line: u32,
    pub column: u32,
}

/// The lines of a source. Its value is the source.
#[derive(Drop)]
pub struct SourceLines<'a> {
    source: &'a [u8],
    starts: Vec<u32>,
}

impl<'a> Model for SourceLines<'a> {
    ghost use Rattle.std.specs.Prelude.{List, ℕ};
    ghost use Rattle.source_positions.specs.Lines.{AreLines};

    ghost Value = { List ℕ };

    ghost view = { λ s. s.source.now };

    ghost invariant = { λ s. AreLines s.source.now s.starts.items };
}

/// Notes this place, where the byte before it is a line feed.
fn note(starts: &mut Vec<u32>, before: u8, at: u32) -> Result<(), AllocError>
    ensures { OnOk result (starts.new.items ≡ starts.old.items ++ start_behind before at) }
{
    if before == b'\n' {
        starts.push(at)?;
    }
    Ok(())
}

/// The places at which the lines of a source begin.
fn read_starts(alloc: Global, source: &[u8]) -> Result<Vec<u32>, AllocError>
    requires { length source.now ≤ SIZE_LIMIT }
    ensures { IfOk result (λ starts. starts.items ≡ line_starts source.now) }
{
    let mut starts = Vec::new(alloc);
    starts.push(0)?;
    for at in 1..source.len() {
        note(&mut starts, source[at - 1], at as u32)?;
    }
    Ok(starts)
}

/// How many of these starts are at most the offset.
fn up_to(starts: &[u32], offset: u32) -> usize
    requires { AreStarts starts.now }
    ensures { Cuts starts.now offset result }
{
    match starts.binary_search(&offset) {
        Ok(place) => place + 1,
        Err(place) => place,
    }
}

/// The position of an offset among these starts.
fn position_by(starts: &[u32], offset: u32) -> LineColumn
    requires starts { AreStarts starts.now }
    requires few { length starts.now ≤ SIZE_LIMIT }
    requires inside { offset ≤ SIZE_LIMIT }
    ensures line { Cuts starts.now offset result.line }
    ensures column { slice_index_or starts.now (result.line - 1) 0 + result.column ≡ offset + 1 }
{
    let line = up_to(starts, offset);
    LineColumn {
        line: line as u32,
        column: offset - starts[line - 1] + 1,
    }
}

/// The lines of a source of less than 4 GiB. Takes time in proportion to the source, and memory for 4 bytes a line.
pub fn lines_of(alloc: Global, source: &[u8]) -> Result<SourceLines<'_>, AllocError>
    requires { length source.now ≤ SIZE_LIMIT }
    ensures { IfOk result (λ lines. lines ≡ source.now) }
{
    let starts = read_starts(alloc, source)?;
    Ok(SourceLines { source, starts })
}

impl<'a> SourceLines<'a> {
    /// The places at which the lines begin, in order.
    pub fn starts(&self) -> &[u32]
        ensures { result.now ≡ line_starts self.now }
    {
        &self.starts
    }

    /// The line and the column of a place of the source, or of its end. It takes a step for each bit of the number of
    /// lines.
    pub fn position(&self, offset: u32) -> LineColumn
        requires { offset ≤ length self.now }
        ensures { IsPosition self.now offset result }
    {
        position_by(&self.starts, offset)
    }
}

/// The starts of lines are the places where lines begin, from 0 on, each above the one before it.
pub fn each_start()
    ensures are { (source : List ℕ) (k : ℕ) → Contains (line_starts source) k → IsLineStart source k }
    ensures all { (source : List ℕ) (k : ℕ) → IsLineStart source k → Contains (line_starts source) k }
    ensures rise { (source : List ℕ) → AreStarts (line_starts source) }
{}

/// A place has one position.
pub fn one_position()
    ensures { (source : List ℕ) (offset : ℕ) (p q : LineColumn) → IsPosition source offset p
        → IsPosition source offset q → p ≡ q }
{}

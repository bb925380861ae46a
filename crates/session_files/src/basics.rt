//! What the names of a session come down to, found for all of them at once.

ghost use Rattle.std.specs.Prelude.{◌≡◌, ◌+◌, ◌<◌, ◌≤◌, ◌^◌, ℕ, length, map, Option, option_map, IfOk};
ghost use Rattle.code_tables.specs.declared.predeclared.Basic.{Basic};
ghost use Rattle.decl_reader.specs.Leads.{lead};
ghost use Rattle.session_files.specs.Sessions.{AreSound};
ghost use Rattle.session_files.specs.OpenSessions.{all_opened};
ghost use Rattle.session_files.specs.Names.{lead_of, comes_down};
ghost use Rattle.session_files.specs.Index.{IsIndex};
ghost use Rattle.session_files.specs.Ways.{basic_at, AreWays, IsFirstWay, AreFirstWays, further, settled};
ghost use Rattle.session_files.specs.declared.limits.TheConstants.{MOST_FILES};

use crate::files::{SessionFile, count_listed, place_in};
use crate::index::{name_at, position_in};
use code_tables::Basic;
use decl_reader::{Head, read_head};
use std::alloc::{AllocError, Global};

/// What is known of a name of the index, as its way is followed.
#[derive(Debug, Drop, Clone, Copy)]
pub enum Way {
    /// What it comes down to.
    Known(Option<Basic>),
    /// It comes down to what this name of the index does.
    Next(usize),
}

/// What each name of the index comes down to. Each round takes every name twice as far along its way, so that no more
/// rounds are needed than the number of names has bits.
pub fn all_basics(
    alloc: Global,
    files: &[SessionFile],
    index: &[(u32, u32)],
) -> Result<Vec<Option<Basic>>, AllocError>
    requires few { length files.now ≤ MOST_FILES }
    requires sound { AreSound (all_opened files.now) }
    requires indexed { IsIndex (all_opened files.now) index.now }
    ensures { IfOk result (λ basics. basics.items ≡ map (basic_at (all_opened files.now)) index.now) }
{
    let mut ways = first_ways(alloc, files, index)?;
    follow_ways(&mut ways, count_listed(files));
    settle(alloc, &ways)
}

fn first_ways(
    alloc: Global,
    files: &[SessionFile],
    index: &[(u32, u32)],
) -> Result<Vec<Way>, AllocError>
    requires sound { AreSound (all_opened files.now) }
    requires indexed { IsIndex (all_opened files.now) index.now }
    ensures { IfOk result (λ ways. AreFirstWays (all_opened files.now) index.now ways.items) }
{
    let mut ways = Vec::new(alloc);
    for at in index {
        ways.push(first_way(files, index, *at))?;
    }
    Ok(ways)
}

/// Where the head of the name leads that is listed there.
fn first_way(files: &[SessionFile], index: &[(u32, u32)], at: (u32, u32)) -> Way
    requires sound { AreSound (all_opened files.now) }
    requires indexed { IsIndex (all_opened files.now) index.now }
    ensures { IsFirstWay (all_opened files.now) index.now at result }
{
    let (path, name) = name_at(files, at);
    match lead_in(files, index, path, name) {
        Some(Head::Link { path, name }) => match position_in(files, index, path, name) {
            Some(next) => Way::Next(next),
            None => Way::Known(None),
        },
        Some(Head::Known(basic)) => Way::Known(Some(basic)),
        None => Way::Known(None),
    }
}

/// Where the head of the name's declaration leads.
fn lead_in<'a>(
    files: &'a [SessionFile],
    index: &[(u32, u32)],
    path: &[u8],
    name: &[u8],
) -> Option<Head<'a>>
    requires sound { AreSound (all_opened files.now) }
    requires indexed { IsIndex (all_opened files.now) index.now }
    ensures { option_map lead result ≡ lead_of (all_opened files.now) path.now name.now }
{
    let place = place_in(files, index, path, name)?;
    read_head(&place.image.parts(), place.offset)
}

/// Follows all ways for at least so many heads.
fn follow_ways(ways: &mut [Way], count: u64)
    requires { count < 2 ^ 62 }
    ensures length { length ways.new ≡ length ways.old }
    ensures ways { (within : ℕ → ℕ → Option Basic) (limit : ℕ) → AreWays within limit 1 ways.old
        → AreWays within limit count ways.new }
{
    let mut reach = 1;
    while reach < count {
        double_ways(ways);
        reach *= 2;
    }
}

/// Takes every name twice as far.
fn double_ways(ways: &mut [Way])
    ensures length { length ways.new ≡ length ways.old }
    ensures ways { (within : ℕ → ℕ → Option Basic) (limit reach : ℕ) → AreWays within limit reach ways.old
        → AreWays within limit (reach + reach) ways.new }
{
    for i in 0..ways.len() {
        let way = further(ways, ways[i]);
        ways[i] = way;
    }
}

fn further(ways: &[Way], way: Way) -> Way
    ensures { result ≡ further ways.now way }
{
    match way {
        Way::Known(_) => way,
        Way::Next(next) => ways.get(next).copied().unwrap_or(way),
    }
}

/// What has been come down to. A way that is still open goes round for ever.
fn settle(alloc: Global, ways: &[Way]) -> Result<Vec<Option<Basic>>, AllocError>
    ensures { IfOk result (λ basics. basics.items ≡ map settled ways.now) }
{
    let mut basics = Vec::new(alloc);
    for way in ways {
        basics.push(settled_way(*way))?;
    }
    Ok(basics)
}

fn settled_way(way: Way) -> Option<Basic>
    ensures { result ≡ settled way }
{
    match way {
        Way::Known(basic) => basic,
        Way::Next(_) => None,
    }
}

/// What a name comes down to, by what is known of the names of the index.
pub fn basic_in(
    files: &[SessionFile],
    index: &[(u32, u32)],
    basics: &[Option<Basic>],
    path: &[u8],
    name: &[u8],
) -> Option<Basic>
    requires sound { AreSound (all_opened files.now) }
    requires indexed { IsIndex (all_opened files.now) index.now }
    requires known { basics.now ≡ map (basic_at (all_opened files.now)) index.now }
    ensures { result ≡ comes_down (all_opened files.now) path.now name.now }
{
    let place = position_in(files, index, path, name)?;
    basics[place]
}

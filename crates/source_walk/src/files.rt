ghost use Rattle.std.specs.Prelude.{◌≡◌, OnOk, map};
ghost use Rattle.source_walk.specs.Rows.{written_parsed};
ghost use Rattle.source_walk.specs.Seen.{seen};
ghost use Rattle.source_walk.specs.Visits.{file_visits, files_visits};

use crate::parsed::ParsedFile;
use crate::tops::visit_tops;
use crate::visitor::Visitor;

/// Sees a file with this number and its declarations, with what stands in them.
pub fn visit_file<V: Visitor>(
    visitor: &mut V,
    number: usize,
    file: &ParsedFile<'_>,
) -> Result<(), V::Stop>
    ensures told { OnOk result (V.told visitor.new ≡ seen V.join (V.tells visitor.old) (V.told visitor.old)
        (file_visits number (written_parsed file.now))) }
    ensures kept { V.tells visitor.new ≡ V.tells visitor.old }
{
    visitor.at_file(number, file.source, &file.tree)?;
    visit_tops(visitor, number, file.source, file.tree.tops.as_slice())
}

/// Sees the files of a package in order, with all that stands in them, in reading order: what is told in the end is
/// what was told before, joined with what is told of each visit. It takes no memory, and the stack that it takes is
/// bounded by the depth of the trees.
pub fn visit_files<V: Visitor>(visitor: &mut V, files: &[ParsedFile<'_>]) -> Result<(), V::Stop>
    ensures told { OnOk result (V.told visitor.new ≡ seen V.join (V.tells visitor.old) (V.told visitor.old)
        (files_visits (map written_parsed files.now))) }
    ensures kept { V.tells visitor.new ≡ V.tells visitor.old }
{
    for (number, file) in files.iter().enumerate() {
        visit_file(visitor, number, file)?;
    }
    Ok(())
}

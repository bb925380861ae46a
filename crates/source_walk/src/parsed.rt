use go_syntax::SourceFile;

/// A file of a package: its source and its tree.
#[derive(Drop)]
pub struct ParsedFile<'a> {
    pub source: &'a [u8],
    pub tree: SourceFile,
}

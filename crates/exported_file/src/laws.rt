//! The law of exported files.

ghost use Rattle.std.specs.Prelude.{List, Option};
ghost use Rattle.go_values.specs.declared.qualified.QName.{QName as Name};
ghost use Rattle.type_terms.specs.Trees.{Text};
ghost use Rattle.environments.specs.Packages.{Meant};
ghost use Rattle.basic_types.specs.BasicTypes.{Entries};
ghost use Rattle.written_types.specs.Written.{Target};
ghost use Rattle.exported_file.specs.Exported.{export_bytes};
ghost use Rattle.exported_file.specs.Law.{CanBeExported, IsExport};

/// The bytes of an export are a full file that lists exactly the needed names, each once, each at the place where what
/// is written of its declaration is spelled; and the file is closed by itself.
pub fn an_export_is_read_again()
    ensures { (target : Target) (whole : Meant) (entries : Entries) (names : List Name) (packages : Text → Option Text)
        → CanBeExported target whole entries names packages
        → IsExport target whole entries names packages (export_bytes target whole entries names packages) }
{}

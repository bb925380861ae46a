ghost use Rattle.std.specs.Prelude.{◌≡◌, ◌++◌, map, OnOk};
ghost use Rattle.std.specs.List.{flat_map};
ghost use Rattle.type_terms.specs.Arenas.{AllBelow};
ghost use Rattle.type_terms.specs.Declarations.{receiver_types, receiver_shape};
ghost use Rattle.decl_text.specs.DeclText.{method_line};
ghost use Rattle.decl_text.specs.PieceText.{described_receiver};
ghost use Rattle.decl_text.specs.Referring.{refer, node_count};

use crate::escapes::put_printed;
use crate::pieces::{Piece, put_joined};
use crate::references::References;
use crate::signatures::put_sig;
use crate::words::put_position;
use std::alloc::AllocError;
use type_terms::Method;

impl Piece for Method {
    ghost use Rattle.type_terms.specs.Declarations.{receiver_types, receiver_shape};
    ghost use Rattle.decl_text.specs.PieceText.{receiver_line};

    ghost types = { λ method. receiver_types (receiver_shape method) };

    ghost text = { receiver_line };

    fn put(&self, line: &mut Vec<u8>, names: &References<'_>) -> Result<(), AllocError> {
        line.extend_from_slice(b"  method ")?;
        put_position(line, &self.pos)?;
        line.extend_from_slice(b" ")?;
        put_printed(line, self.name.as_slice())?;
        line.extend_from_slice(b" (")?;
        self.recv.put(line, names)?;
        line.extend_from_slice(b") ")?;
        put_sig(line, &self.sig, names)?;
        line.extend_from_slice(b"\n")
    }
}

/// Adds a line for each method.
#[tactic(auto, using(crate::proofs::Fused::receivers_types, crate::proofs::Fused::receivers_lines))]
pub fn put_methods(
    text: &mut Vec<u8>,
    methods: &[Method],
    names: &References<'_>,
) -> Result<(), AllocError>
    requires { AllBelow (node_count names.now) (flat_map receiver_types (map receiver_shape methods.now)) }
    ensures { OnOk result (text.new.items ≡ text.old.items
        ++ flat_map method_line (map (described_receiver (refer names.now)) (map receiver_shape methods.now))) }
{
    put_joined(text, methods, b"", names)
}

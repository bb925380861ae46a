//! Fields of structs.

ghost use Rattle.std.specs.Prelude.{◌≡◌, ℕ, map, length, true, Option, IfOk};
ghost use Rattle.go_values.specs.declared.qualified.QName.{QName as Name};
ghost use Rattle.type_terms.specs.NodeShapes.{field_shape};
ghost use Rattle.type_alike.specs.Demands.{parts_where, same_field, same_fields, in_step, field_parts};
ghost use Rattle.type_demands.specs.NodeDemands.{node_pair, meant};

use crate::demands::Demand;
use crate::in_step::push_in_step;
use environments::is_exported;
use go_values::Bytes;
use std::alloc::{AllocError, Global};
use type_terms::Field;

/// What two structs demand, which stand in these packages.
pub(crate) fn struct_demand(
    alloc: Global,
    home: &Bytes,
    other: &Bytes,
    left: &[Field],
    right: &[Field],
) -> Result<Demand, AllocError>
    ensures { (generic : ℕ → Option Name) → IfOk result (λ found. meant found
        ≡ parts_where (same_fields home.now other.now (map field_shape left.now) (map field_shape right.now))
        (in_step generic node_pair (field_parts (map field_shape left.now)) (field_parts (map field_shape right.now)))) }
{
    if !same_fields(home, other, left, right) {
        return Ok(Demand::Differ);
    }
    let mut parts = Vec::new(alloc);
    push_in_step(left, right, &mut parts)?;
    Ok(Demand::Parts(parts))
}

/// Whether there are as many fields, and those in the same place are the same but for their types.
fn same_fields(home: &Bytes, other: &Bytes, left: &[Field], right: &[Field]) -> bool
    ensures exact { result
        ≡ same_fields home.now other.now (map field_shape left.now) (map field_shape right.now) }
    ensures count { result ≡ true → length left.now ≡ length right.now }
{
    if left.len() != right.len() {
        return false;
    }
    for k in 0..left.len() {
        if !same_field(home, other, &left[k], &right[k]) {
            return false;
        }
    }
    true
}

/// Whether two fields have the same name, embedding and tag, and where the name isn't exported the same home.
fn same_field(home: &Bytes, other: &Bytes, left: &Field, right: &Field) -> bool
    ensures { result ≡ same_field home.now other.now (field_shape left.now) (field_shape right.now) }
{
    left.name == right.name
        && left.embedded == right.embedded
        && left.tag == right.tag
        && (is_exported(left.name.as_slice()) || home == other)
}

//! Whether declarations are what the check of cycles asks for.

ghost use Rattle.std.specs.Prelude.{IsTrue, length};
ghost use Rattle.cycle_rules.specs.Forms.{Fits};
ghost use Rattle.cycle_rules.specs.Cycles.{AreShapes, targets_of};
ghost use Rattle.front_cases.specs.Fitting.{AllBelow, AllFit};

use cycle_rules::{CycleKind, DeclShape, Form};

/// Whether the numbers are below a bound.
fn all_below(numbers: &[u32], bound: usize) -> bool
    ensures { IsTrue result → AllBelow numbers.now bound }
{
    for number in numbers {
        if *number as usize >= bound {
            return false;
        }
    }
    true
}

#[cycle(fitting)]
fn form_fits(shapes: &[DeclShape], params: u32, form: &Form) -> bool
    ensures { IsTrue result → Fits shapes.now params form.now }
{
    match form {
        Form::Stop => true,
        Form::Held(index) => *index < params,
        Form::Apply(applied, arguments) => {
            let place = *applied as usize;
            if place >= shapes.len() {
                return false;
            }
            all_fit(shapes, params, arguments.as_slice())
        }
        Form::Parts(parts) => all_fit(shapes, params, parts.as_slice()),
    }
}

#[cycle(fitting)]
fn all_fit(shapes: &[DeclShape], params: u32, forms: &[Form]) -> bool
    ensures { IsTrue result → AllFit shapes.now params forms.now }
{
    for form in forms {
        if !form_fits(shapes, params, form) {
            return false;
        }
    }
    true
}

fn shape_fits(shapes: &[DeclShape], shape: &DeclShape) -> bool
    ensures form { IsTrue result → Fits shapes.now shape.now.params shape.now.holds }
    ensures lists { IsTrue result → (kind : CycleKind) → AllBelow (targets_of kind shape.now) (length shapes.now) }
{
    let count = shapes.len();
    if !form_fits(shapes, shape.params, &shape.holds) {
        return false;
    }
    all_below(&shape.embeds, count)
        && all_below(&shape.aliases, count)
        && all_below(&shape.constraints, count)
        && all_below(&shape.values, count)
}

/// Whether each number in these declarations names a declaration or a parameter.
pub fn are_shapes(shapes: &[DeclShape]) -> bool
    ensures { IsTrue result → AreShapes shapes.now }
{
    for shape in shapes {
        if !shape_fits(shapes, shape) {
            return false;
        }
    }
    true
}

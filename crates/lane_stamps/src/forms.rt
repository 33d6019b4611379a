//! Forms of places.

ghost use Rattle.std.specs.Prelude.{◌≡◌, ◌+◌, ◌≤◌, IfSome};
ghost use Rattle.lane_stamps.specs.{Sites.{element_named}, Forms.{IsFormOf}};

use lane_rows::Places;

/// How the places of lanes lie.
#[derive(Clone, Copy)]
pub enum Form {
    /// All lanes have this one.
    One(u32),
    /// Their elements run from that of this one on, and if they are halves, all are upper ones or all are lower ones.
    Run(u32),
    /// Anyhow.
    Any,
}

/// The element that a place is, or is a half of.
#[inline(always)]
pub fn element_of(halves: bool, place: u32) -> usize
    ensures { result ≡ element_named halves place }
{
    if halves {
        place as usize / 2
    } else {
        place as usize
    }
}

/// The form of the places of the first lanes, for elements below a number.
pub fn form_of(places: &Places, halves: bool, count: usize, elements: usize) -> Form
    requires { count ≤ 512 }
    ensures { IsFormOf result halves places.now count elements }
{
    let Some(line) = places.line else {
        return Form::Any;
    };
    let first = element_of(halves, line.first);
    let step = if halves { 2 } else { 1 };
    if line.step == 0 && first < elements {
        Form::One(line.first)
    } else if line.step == step && first + count <= elements && line.first <= u32::MAX - 1024 {
        Form::Run(line.first)
    } else {
        Form::Any
    }
}

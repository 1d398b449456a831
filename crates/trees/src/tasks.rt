// What a constraint asks.
ghost use Rattle.std.specs.Prelude.{◌<◌};
ghost use Rattle.trees.specs.Stores.{Formed};
ghost use Rattle.trees.specs.laws.Sounds.{formed_prop};

use crate::cells::Form;

// Two variables that are to be equal.
#[derive(Clone, Copy)]
pub struct Merge {
    pub x: u16,
    pub y: u16,
    ghost first: { x < 256 },
    ghost second: { y < 256 },
}

// A variable that is to have a form.
#[derive(Clone, Copy)]
pub struct Bind {
    pub x: u16,
    pub form: Form,
    ghost within: { x < 256 },
    ghost formed: { Formed 256 form } by { formed_prop 256 form },
}

// What a constraint asks: that two variables are equal, or that a variable has a form.
#[derive(Clone, Copy)]
pub enum Task {
    Equal(Merge),
    Has(Bind),
}

//! What names a yard in the types of its threads' handles.

use std::marker::Brand;

/// Names a yard, so that a seat that a handle gives back is one of that yard, whatever was done with the handle. A function over it is
/// called with `Brand`, and the call's proof picks the yard that it is handed.
pub trait YardName {
    ghost use Rattle.atomic_table.specs.Seated.{TableId};
    ghost use Rattle.yard_model.specs.declared.view.Beginning.{Beginning};

    // The yard's table.
    ghost table: { TableId };

    // What its life began with.
    ghost beginning: { Beginning };
}

impl YardName for Brand {
    ghost use Rattle.shared_yard.specs.Names.{no_table};
    ghost use Rattle.shared_yard.specs.Rule.{no_beginning};

    ghost table = { no_table };

    ghost beginning = { no_beginning };
}

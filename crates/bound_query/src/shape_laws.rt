//! A law of shapes that the definitions alone give.
ghost use Rattle.std.specs.Prelude.{◌≡◌, List, Result};
ghost use Rattle.anyk_model.specs.Query.{Query};
ghost use Rattle.anyk_model.specs.Table.{Table};
ghost use Rattle.bound_query.specs.Shape.{Flaw, IsShape, Shape};

/// A query has at most one result over its tables: a shape, or a flaw.
pub fn one_shape()
    ensures { (query : Query) (tables : List Table) (x y : Result Shape Flaw)
        → IsShape query tables x → IsShape query tables y → x ≡ y }
{}

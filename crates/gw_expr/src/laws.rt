// Laws of evaluation and of FUNCTIONs.
ghost use Rattle.gw_expr.specs.Laws.{ConstantsHangOnNothing, ExpressionsHaveTheirValues, NestedHaveTheirValues, PointsHaveTheirValues};

/// An expression is kept in postfix order. It has the value that recursion on the expression gives it, by the same
/// questions. So has the expression of a VARIABLE, whatever the definitions in it come to.
pub fn expressions_have_their_values()
    ensures operands { ExpressionsHaveTheirValues }
    ensures nested { NestedHaveTheirValues }
{}

/// An expression of constants has one value, or one stop, whatever the definitions come to. It asks for nothing.
pub fn constants_hang_on_nothing()
    ensures { ConstantsHangOnNothing }
{}

/// At each of its points, which rise, a FUNCTION of either type comes to the point's value.
pub fn points_have_their_values()
    ensures { PointsHaveTheirValues }
{}

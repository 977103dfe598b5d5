// The laws of the processor's arithmetic, in the words of the subject. Each function stands for the laws that it ensures.
#![tactic(auto)]

ghost use Rattle.arithmetic_laws.specs.Bits as bits;
ghost use Rattle.arithmetic_laws.specs.Decimal as decimal;
ghost use Rattle.arithmetic_laws.specs.Increment as increment;
ghost use Rattle.arithmetic_laws.specs.Rotate as rotate;
ghost use Rattle.arithmetic_laws.specs.Shown as shown;
ghost use Rattle.arithmetic_laws.specs.Sums as sums;
ghost use Rattle.arithmetic_laws.specs.Wide as wide;

pub fn sum_laws()
    ensures undone { sums.Undone }
    ensures compared { sums.Compared }
    ensures carried { sums.Carried }
    ensures borrowed { sums.Borrowed }
    ensures halved { sums.Halved }
    ensures overflowed { sums.Overflowed }
{}

pub fn wide_laws()
    ensures carried { wide.Carried }
    ensures overflowed { wide.Overflowed }
    ensures shown { wide.Shown }
    ensures product { wide.Product }
{}

pub fn increment_laws()
    ensures undone { increment.Undone }
    ensures stepped { increment.Stepped }
    ensures negated { increment.Negated }
{}

pub fn shown_laws()
    ensures sums { shown.Sums }
    ensures logic { shown.Logic }
    ensures others { shown.Others }
    ensures parity { shown.Parity }
{}

pub fn decimal_laws()
    ensures sum { decimal.Sum }
    ensures difference { decimal.Difference }
{}

pub fn rotate_laws()
    ensures circular { rotate.Circular }
    ensures carry { rotate.ThroughCarry }
    ensures digits { rotate.Digits }
{}

pub fn bit_laws()
    ensures { bits.Changed }
{}

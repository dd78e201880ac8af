//! Rules that have no direction back and take no arguments.
ghost use Rattle.std.specs.Prelude.{◌≡◌};
ghost use Rattle.kid_kernel.specs.Arguments.{is_forth_alone};

use kid_term::Terms;

/// Whether a rule is wanted forth and without arguments. Takes no memory.
pub fn forth_alone(back: bool, args: &Terms) -> bool
    ensures { result ≡ is_forth_alone back args.now }
{
    !back && args.len() == 0
}
